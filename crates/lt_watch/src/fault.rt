// Why a watched run is refused.

use lt_load::CommandFault;
use lt_past::ObserverFault;

/// Why a watched run is refused.
#[derive(Drop)]
pub enum WatchFault {
    /// By its files, or by a call that failed.
    Command(CommandFault),
    /// By what its observer's file says.
    Observer(ObserverFault),
}
