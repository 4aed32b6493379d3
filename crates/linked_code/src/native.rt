//! The methods that the machine itself carries out.

/// `sys/Native.read`, `write` and `exit`, `java/lang/System.arraycopy`, and `phosphor/Report.tag` (this project's own).
#[derive(Clone, Copy, Debug, PartialEq, Eq)]
pub enum Native {
    Read,
    Write,
    Exit,
    ArrayCopy,
    Report,
}
