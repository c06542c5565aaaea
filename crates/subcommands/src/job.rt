/// A file that is read, and the name that it is reported by.
#[derive(Drop)]
pub struct NamedFile<'a, I> {
    /// The name, as the command line has it.
    pub name: &'a str,
    /// The reader of its bytes.
    pub reader: I,
}

/// The files of a subcommand: a mapfile, and the folder of the files that it names.
#[derive(Drop)]
pub struct Job<'a, F, I> {
    /// The folder.
    pub folder: &'a F,
    /// The mapfile.
    pub mapfile: NamedFile<'a, I>,
    /// Whether a fault is reported with a message, and why a file can't be read, and the warnings on the map.
    pub explains: bool,
}
