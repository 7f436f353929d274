// What each command does, a file for each.
pub(crate) mod audit;
pub(crate) mod big;
pub(crate) mod check;
pub(crate) mod meaning;
pub(crate) mod plan;
pub(crate) mod run;
pub(crate) mod sim;
pub(crate) mod trace;
pub(crate) mod watch;
