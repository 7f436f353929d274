// What the texts of the large input read as.
ghost use Rattle.lt_big_texts.specs.Bounds.{HorizonServes, SetupRead};
ghost use Rattle.lt_big_texts.specs.Reading.{InputsRead};

/// The text of the setup reads as the bounds and the nodes that it names.
pub fn setup_read()
    ensures { SetupRead }
{}

/// By the horizon of so many instants each node of this setup has executed that many at least, where the inputs last.
pub fn horizon_serves()
    ensures { HorizonServes }
{}

/// The text of the inputs of so many instants reads as a row for each of them, which has its number.
pub fn inputs_read()
    ensures { InputsRead }
{}
