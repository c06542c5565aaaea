//! Laws of the definitions. A law is a function without arguments whose contract states it.

ghost use Rattle.scripts.specs.Digits.{DigitsStandForBody};
ghost use Rattle.scripts.specs.Written.{WrittenScriptIsRead};

/// A script that is written out from events, each as its command, is read as these events, in order. The text of a
/// query may have any bytes but LF, and a batch any bytes.
pub fn written_script_is_read()
    ensures { WrittenScriptIsRead }
{}

/// A picture is written in lines of 64 digits, the last of 1 to 64. Read without their LFs, two digits a byte, 0 to 9
/// and then a to f, they give the bytes of its body.
pub fn digits_stand_for_body()
    ensures { DigitsStandForBody }
{}
