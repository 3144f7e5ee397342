//! Parts of inputs and of what they are answered.

/// The puts of 100, of 10 and of 5 bytes.
pub const PUT_A: &str = "put a 100\n\
    0123456789012345678901234567890123456789012345678901234567890123456789012345678901234567890123456789\n";

pub const PUT_B: &str = "put b 10\nabcdefghij\n";

pub const PUT_C: &str = "put c 5\nklmno\n";

/// The replies that have these bytes.
pub const DATA_A: &str = "data 100\n\
    0123456789012345678901234567890123456789012345678901234567890123456789012345678901234567890123456789\n";

pub const DATA_B: &str = "data 10\nabcdefghij\n";

pub const DATA_C: &str = "data 5\nklmno\n";

/// Replies of one line.
pub const OK: &str = "ok\n";

pub const KEPT: &str = "ok kept\n";

pub const MISSING: &str = "refused missing\n";
