// Messages one after another in one place.

use crate::shown::show_value;
use lt_base::{List, Memory, Value};
use lt_link::Inbox;
use std::alloc::Global;

const FIRST: [Value; 2] = [Value::Int(1), Value::Bool(true)];

const SECOND: [Value; 2] = [Value::Int(2), Value::Bool(false)];

/// Whether a message is fresh and its bit: at first, once it is taken, and of a second one, with what that says.
pub fn read_once(alloc: Global) -> Result<String, Memory> {
    let mut inbox = Inbox::new(List::from_slice(alloc, &FIRST)?, true);
    let first = (inbox.fresh(), inbox.bit());
    inbox.take();
    let taken = inbox.fresh();
    inbox.put(&SECOND, true);
    let second = (inbox.fresh(), inbox.bit());
    show_value(alloc, (first, taken, second, inbox.payload()))
}

/// A second message takes the place of an unread one, and its bit is the one that was read before.
pub fn unread(alloc: Global) -> Result<String, Memory> {
    let mut inbox = Inbox::new(List::from_slice(alloc, &SECOND)?, false);
    inbox.put(&SECOND, true);
    inbox.put(&FIRST, false);
    show_value(alloc, (inbox.fresh(), inbox.bit(), inbox.payload()))
}
