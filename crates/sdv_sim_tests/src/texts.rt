//! A script, cards and traces that tests share.

/// A script that brings a card up and then reads the last block.
pub const LAST_BLOCK: &str = "card sd
flags hc
nums cap x
send 0 { else { } }
send 8 { else { } }
loop 1000 { send 55 { app { send 41 0x40ff8000 { ocr.ready & ocr.block { set hc break } ocr.ready { break } answer { } else { fault lost41 } } } else { fault lost55 } } } else { fault busy }
send 2 { answer { } else { fault cid } }
send 3 { clean { } else { fault rca } }
send 9 { answer { } else { fault csd } }
send 7 { clean { } else { fault select } }
send 16 { clean { } else { fault blen } }
let cap = csd.blocks
let x = cap - 1
send 17 at by hc x { clean { recv { ok { } else { fault read } } } else { fault read } }
done
";

/// An SD card of version 2 with block addresses, of 1,024 blocks.
pub const BLOCK_CARD: &str = "card sd\nversion 2\nunit block\ncsize 0\nrca 4660\n";

/// An SD card of version 1, of 4 blocks.
pub const BYTE_CARD: &str = "card sd\nversion 1\nunit byte\ncsize 0\ncmult 0\nrbl 9\nrca 1\n";

/// An e.MMC device with block addresses, of 2,048 blocks.
pub const DEVICE: &str = "card emmc\nunit block\nsectors 2048\n";

/// The lines of the block card's bring-up.
pub const BLOCK_CARD_UP: &str = "CMD0 00000000 -
CMD8 000001aa R7 000001aa
CMD55 00000000 R1 00000120
CMD41 40ff8000 R3 c0ff8000
CMD2 00000000 R2 005858534456202010000000010181
CMD3 00000000 R6 12340500
CMD9 12340000 R2 400000000009000000000000000000
CMD7 12340000 R1 00000700
CMD16 00000200 R1 00000900
";

/// The lines of the byte card's bring-up.
pub const BYTE_CARD_UP: &str = "CMD0 00000000 -
CMD8 000001aa timeout
CMD55 00000000 R1 00000120
CMD41 40ff8000 R3 80ff8000
CMD2 00000000 R2 005858534456202010000000010181
CMD3 00000000 R6 00010500
CMD9 00010000 R2 000000000009000000000000000000
CMD7 00010000 R1 00000700
CMD16 00000200 R1 00000900
";

/// The lines of the device's bring-up.
pub const DEVICE_UP: &str = "CMD0 00000000 -
CMD1 40ff8080 R3 c0ff8080
CMD2 00000000 R2 000158534456455249100000000117
CMD3 00010000 R1 00000500
CMD9 00010000 R2 00000000000903ffc0038000000000
CMD7 00010000 R1 00000700
CMD16 00000200 R1 00000900
CMD8 00000000 R1 00000900
REG 512 ok
";
