use crate::reader::Reader;
use crate::rule::Sharing;
use layers::Layers;
use mapmachine::Machine;

// Takes a value that may be sent to other threads, and read from them.
fn crosses<T: Send + Sync>(_value: &T) {}

// Takes a value that may be sent to other threads.
fn sends<T: Send>(_value: &T) {}

/// Served layers may be sent to other threads, and read from them.
pub fn layers_cross(layers: &Layers) {
    crosses(layers);
}

/// A map machine may be sent to other threads, and read from them: readers and the administrator may have threads of
/// their own.
pub fn machine_crosses(machine: &Machine) {
    crosses(machine);
}

/// A reader may be sent to another thread.
pub fn reader_crosses<S: Sharing + Send + Sync>(reader: &Reader<S>) {
    sends(reader);
}
