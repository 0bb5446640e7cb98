//! The device registers of a part, each a word, by their addresses. The first stands at `DEVICE_BASE`.

/// A word stored here is a row of the part's trace, of kind `word`.
pub const TRACE: u32 = 0x8000_0000;

/// A load gives the low word of the current cycle.
pub const CYCLE: u32 = 0x8000_0004;

/// A load gives the high word of the current cycle.
pub const CYCLEH: u32 = 0x8000_0008;

/// A word stored here joins the send queue of the part's first port. Each further port's registers stand
/// `PORT_BYTES` after the one's before.
pub const SEND: u32 = 0x8000_0100;

/// A load takes the oldest word that the port received.
pub const RECV: u32 = 0x8000_0104;

/// A load gives how many words the port's send queue has places for.
pub const ROOM: u32 = 0x8000_0108;

/// A load gives how many words the port has received.
pub const FILL: u32 = 0x8000_010C;

/// The distance in bytes from a port's registers to those of the next.
pub const PORT_BYTES: u32 = 16;
