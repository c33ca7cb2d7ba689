//! Two stores that were not opened as a world.
use mt_open::OpenFault;

/// Two stores that were not opened, as they are, and why.
#[derive(Drop)]
pub struct NotOpened<K> {
    pub fault: OpenFault,
    pub old: K,
    pub new: K,
}
