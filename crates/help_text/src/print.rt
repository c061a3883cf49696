ghost use Rattle.std.specs.Prelude.{◌≡◌, ◌⊎◌};

/// The exit status where the text was printed.
const OK_CODE: u8 = 0;
/// The exit status where it can't be written.
const WRITE_FAULT_CODE: u8 = 7;

/// Prints a text, and gives the exit status: 0, or 7 where it can't be written.
pub fn told(rt: &impl Print, text: &str) -> u8
    ensures { (result ≡ 0) ⊎ (result ≡ 7) }
{
    match rt.print(text) {
        Ok(()) => OK_CODE,
        Err(_) => WRITE_FAULT_CODE,
    }
}
