/// The version that `--version` prints after the program's name: its number, the date of the rules that the program
/// follows, and the logic of its proofs, as `rt version` names it.
pub(crate) const VERSION: &str = "0.1.0, rules of 2026-12-01, proved by logic dac8208d650f15bf";
