//! Scripts that several tests run.

/// A script that brings a card up to the transfer state.
pub const BRING_UP: &str = "card sd
flags hc
nums cap
send 0 { else { } }
send 8 { else { } }
loop 1000 { send 55 { app { send 41 0x40ff8000 { ocr.ready & ocr.block { set hc break } ocr.ready { break } answer { } else { fault lost41 } } } else { fault lost55 } } } else { fault busy }
send 2 { answer { } else { fault cid } }
send 3 { clean { } else { fault rca } }
send 9 { answer { } else { fault csd } }
send 7 { clean { } else { fault select } }
send 16 { clean { } else { fault blen } }
let cap = csd.blocks
done
";

/// A script that brings an e.MMC device up to the transfer state.
pub const DEVICE_BRING_UP: &str = "card emmc
flags hc
nums cap
send 0 { else { } }
loop 1000 { send 1 { ocr.ready & ocr.block { set hc break } ocr.ready { break } answer { } else { fault lost1 } } } else { fault busy }
send 2 { answer { } else { fault cid } }
send 3 { clean { } else { fault rca } }
send 9 { answer { } else { fault csd } }
send 7 { clean { } else { fault select } }
send 16 { clean { } else { fault blen } }
if hc { send 8 { clean { recv reg { ok { let cap = ext.blocks } else { fault ext } } } else { fault ext } } } else { let cap = csd.blocks }
done
";

/// The smallest script that sends a command.
pub const SMALLEST: &str = "card sd\nsend 0 { else { } }\nfault stop\n";
