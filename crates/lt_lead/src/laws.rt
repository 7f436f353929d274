// The laws of rounds that a node leads, over lists of events.
ghost use Rattle.lt_lead.specs.Channels.{LeadShapesFit};
ghost use Rattle.lt_lead.specs.Laws.{LeaderExecutesOnExactMessages, LeaderKeepsOnePlace, LeaderReachesBound};

/// The shape of a placed layout where one of its nodes leads has the channels that a net over it asks for, and one from the leader to each
/// other node.
pub fn lead_shapes_fit()
    ensures { LeadShapesFit }
{}

/// Where a node leads and the timing is accepted, a node that executes an instant has exactly the message of that instant on every
/// incoming data channel.
pub fn exact_messages()
    ensures { LeaderExecutesOnExactMessages }
{}

/// So no list of events within the range of times puts two messages on one channel, and each channel has delivered what a freshness
/// bit tells of it.
pub fn one_place()
    ensures { LeaderKeepsOnePlace }
{}

/// Where an admissible list ends, each node has executed at least the smaller of its bound and the number of input rows.
pub fn least_length()
    ensures { LeaderReachesBound }
{}
