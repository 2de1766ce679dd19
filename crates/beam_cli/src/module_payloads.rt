//! The payloads of a module of three functions, `go/1` and what each module has, for tests.

pub(crate) const ATOMS: &[u8] =
    b"\0\0\0\x05\x01m\x02go\x06erlang\x0bmodule_info\x0fget_module_info";

pub(crate) const IMPORTS: &[u8] =
    b"\0\0\0\x02\0\0\0\x03\0\0\0\x05\0\0\0\x01\0\0\0\x03\0\0\0\x05\0\0\0\x02";

pub(crate) const EXPORTS: &[u8] = b"\0\0\0\x03\0\0\0\x04\0\0\0\x01\0\0\0\x06\
\0\0\0\x04\0\0\0\0\0\0\0\x04\0\0\0\x02\0\0\0\x01\0\0\0\x02";

pub(crate) const ATTRIBUTES: &[u8] =
    b"\x83l\0\0\0\x01h\x02w\x03vsnl\0\0\0\x01n\x10\0\x01\0\0\0\0\0\0\0\0\0\0\0\0\0\0\x01jj";

pub(crate) const LINES: &[u8] = b"\0\0\0\0\0\0\0\0\0\0\0\x04\0\0\0\x02\0\0\0\01A";

// The code of the three functions, in its canonical spelling.
pub(crate) const CODE: &[u8] = b"\0\0\0\x10\0\0\0\0\0\0\0\x99\0\0\0\x07\0\0\0\x03\
\x01\x10\x99\x10\x02\x12\x22\x10\x01\x20\x0c\x10\x10\x40\x03\x04\x99\x20\x04\x00\x45\
\x10\x20\x10\x45\x04\x03\x03\x12\x10\x13\x01\x30\x99\x00\x02\x12\x42\x00\x01\x40\x40\x12\x03\x4e\
\x10\x00\x01\x50\x99\x00\x02\x12\x42\x10\x01\x60\x40\x03\x13\x40\x12\x03\x4e\x20\x10\x03";
