// The sizes that the rules fix, and the numbers that they give a meaning. Follows docs/RULES.md, "Sizes" and "Lost stitches".

// The longest pattern, in samples.
pub const PATTERN_LIMIT: usize = 1024;

// The longest trace, in samples.
pub const TRACE_LIMIT: usize = 65536;

// The longest recording that is written, in samples.
pub const RECORDING_LIMIT: usize = 65536;

// The longest input of the program, in bytes.
pub const INPUT_LIMIT: usize = 16384;

// A table entry that names no place. A number and not an `Option`: the rules fix it, and C hosts keep tables of 16-bit entries.
pub const NONE: u16 = 65535;

// An entry of the survivors or positions buffer that holds no window. A number: C hosts read these buffers, and the rules fix it.
pub const UNUSED: u32 = 4294967295;

// A sample that is no tension: a lost stitch. A number: traces and recordings hold samples of 32 bits, and the rules fix it.
pub const LOST: i32 = -2147483648;
