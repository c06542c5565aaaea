/// The program on a host.
#[derive(Drop)]
pub struct Program<'a, R, H> {
    /// Its runtime.
    pub rt: R,
    /// The host, which has its files and its ports.
    pub host: &'a H,
}
