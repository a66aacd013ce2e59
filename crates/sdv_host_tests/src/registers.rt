//! Registers, by values that the standards' tables and hand calculation give.

use bitflags::Flags;
use sdv_registers::{
    Cid, Csd, CsdLayout, EmmcCid, ExtCsd, Kind, Ocr, PublishedRca, RegisterFault, Scr, SdCid,
    Status,
};
use std::test::Fail;

// A card status: its state, whether it is ready, awaits an application command, or refuses one, and its text.
static STATUSES: [(u32, (u8, bool, bool, bool), &str); 3] = [
    (
        0x0000_0900,
        (4, true, false, false),
        "00000900 tran READY_FOR_DATA",
    ),
    (
        0x0040_0120,
        (0, true, true, true),
        "00400120 idle ILLEGAL_COMMAND READY_FOR_DATA APP_CMD",
    ),
    (0x0000_1e00, (15, false, false, false), "00001e00 reserved"),
];

#[test]
fn reads_statuses(rt: HostRuntime) -> Result<(), Fail> {
    for &(word, wanted, text) in STATUSES.iter() {
        let status = Status(word);
        let found = (
            status.state(),
            status.is_ready_for_data(),
            status.is_app_cmd(),
            status.contains(Status::ILLEGAL_COMMAND),
        );
        assert!(rt; found == wanted && !status.is_switch_error(), "{text}");
        let printed = format!(in rt.alloc(); "{status}")?;
        assert!(rt; printed.as_str() == text, "{printed}");
    }
    Ok(())
}

#[test]
fn reads_a_published_address(rt: HostRuntime) {
    let word = PublishedRca(0x1234_0500);
    let found = (word.rca(), word.state(), word.is_ready_for_data());
    assert!(rt; found == (0x1234, 2, true));
}

/// Each bit of the card status: whether it is a doubt, and whether a reply with it is clean.
#[test]
fn tells_doubts_and_clean_replies(rt: HostRuntime) {
    for place in 0..32u32 {
        let word = 1 << place;
        let status = Status(word);
        let published = PublishedRca(word);
        let found = (
            status.has_doubt(),
            status.is_clean(Kind::Sd),
            status.is_clean(Kind::Emmc),
            published.has_doubt(),
            published.is_clean(),
        );
        let wanted = (
            word & 0xfd39_0000 != 0,
            word & 0xfdf9_0000 == 0,
            word & 0xfdf9_0080 == 0,
            word & 0x2000 != 0,
            word & 0xe000 == 0,
        );
        assert!(rt; found == wanted, "bit {place}");
    }
    let masks = (
        Status::DOUBT.0,
        Status::errors(Kind::Sd).0,
        Status::errors(Kind::Emmc).0,
    );
    assert!(rt; masks == (0xfd39_0000, 0xfdf9_0000, 0xfdf9_0080));
}

#[test]
fn reads_the_operation_conditions(rt: HostRuntime) {
    let sd = Ocr(0xc0ff_8000);
    assert!(rt; sd.is_powered_up() && sd.ccs() && sd.is_block_addressed(Kind::Sd));
    assert!(rt; sd.voltage_windows() == 0x1ff && !Ocr(0x80ff_8000).is_block_addressed(Kind::Sd));
    let emmc = Ocr(0xc0ff_8080);
    assert!(rt;
        emmc.access_mode() == 2 && emmc.is_block_addressed(Kind::Emmc) && emmc.has_low_voltage()
    );
    let reserved = Ocr(0x60ff_8000);
    assert!(rt;
        !reserved.is_powered_up()
            && !reserved.is_block_addressed(Kind::Emmc)
            && !reserved.has_low_voltage()
    );
}

#[test]
fn reads_cids(rt: HostRuntime) {
    let register = [
        0x00, 0x58, 0x58, 0x53, 0x44, 0x56, 0x20, 0x20, 0x10, 0x00, 0x00, 0x00, 0x01, 0x01, 0x81,
    ];
    let cid = SdCid(register);
    let found = (
        cid.mid(),
        cid.oid(),
        cid.prv(),
        cid.psn(),
        cid.mdt_year(),
        cid.mdt_month(),
    );
    assert!(rt; found == (0, 0x5858, 0x10, 1, 24, 1) && cid.pnm() == b"SDV  ".as_slice());
    assert!(rt; Cid::new(Kind::Sd, register) == Cid::Sd(cid));
    let register = [
        0x00, 0x01, 0x58, 0x53, 0x44, 0x56, 0x45, 0x52, 0x49, 0x10, 0x00, 0x00, 0x00, 0x01, 0x17,
    ];
    let cid = EmmcCid(register);
    let found = (
        cid.mid(),
        cid.cbx(),
        cid.oid(),
        cid.prv(),
        cid.psn(),
        cid.mdt(),
    );
    assert!(rt; found == (0, 1, 0x58, 0x10, 1, 0x17) && cid.pnm() == b"SDVERI".as_slice());
    assert!(rt; Cid::new(Kind::Emmc, register) == Cid::Emmc(cid));
}

/// A CSD of version 1, with this CSD_STRUCTURE in its first byte and READ_BL_LEN in its sixth.
fn standard(structure: u8, block_length: u8) -> [u8; 15] {
    [
        structure,
        0,
        0,
        0,
        0,
        block_length,
        0x03,
        0xc8,
        0xc0,
        0x03,
        0x80,
        0,
        0,
        0,
        0,
    ]
}

/// A CSD of version 2, with this READ_BL_LEN in its sixth byte, and C_SIZE.
fn high(block_length: u8, size: [u8; 3]) -> [u8; 15] {
    let [first, second, third] = size;
    [
        0x40,
        0,
        0,
        0,
        0,
        block_length,
        0,
        first,
        second,
        third,
        0,
        0,
        0,
        0,
        0,
    ]
}

/// The bytes of a CSD.
#[derive(Clone, Copy, Debug)]
enum CsdBytes {
    /// Of version 1, with this CSD_STRUCTURE in its first byte and READ_BL_LEN in its sixth.
    Standard(u8, u8),
    /// Of version 2, with this READ_BL_LEN in its sixth byte, and C_SIZE.
    High(u8, [u8; 3]),
    /// Of an e.MMC device whose EXT_CSD has the capacity.
    Sectors,
}

impl CsdBytes {
    fn register(self) -> [u8; 15] {
        match self {
            CsdBytes::Standard(structure, block_length) => standard(structure, block_length),
            CsdBytes::High(block_length, size) => high(block_length, size),
            CsdBytes::Sectors => [
                0xd0, 0, 0, 0, 0, 0x09, 0x03, 0xff, 0xc0, 0x03, 0x80, 0, 0, 0, 0,
            ],
        }
    }
}

// Registers, and the capacity or the fault that they give.
static CAPACITIES: [(Kind, CsdBytes, Result<u64, RegisterFault>); 10] = [
    (
        Kind::Sd,
        CsdBytes::High(0x09, [0, 0xed, 0xc8]),
        Ok(62_333_952),
    ),
    (
        Kind::Sd,
        CsdBytes::High(0x09, [0x3f, 0xff, 0xff]),
        Ok(4_294_967_296),
    ),
    (Kind::Sd, CsdBytes::Standard(0, 0x0a), Ok(3_969_024)),
    (
        Kind::Sd,
        CsdBytes::Standard(0, 0x0c),
        Err(RegisterFault::BlockLength),
    ),
    (
        Kind::Sd,
        CsdBytes::Standard(0, 0x08),
        Err(RegisterFault::BlockLength),
    ),
    (
        Kind::Sd,
        CsdBytes::Standard(0x80, 0x0c),
        Err(RegisterFault::Structure),
    ),
    (
        Kind::Sd,
        CsdBytes::High(0x0c, [0, 0xed, 0xc8]),
        Ok(62_333_952),
    ),
    (Kind::Emmc, CsdBytes::Standard(0, 0x0a), Ok(3_969_024)),
    (
        Kind::Emmc,
        CsdBytes::Standard(0x80, 0x0c),
        Err(RegisterFault::BlockLength),
    ),
    (Kind::Emmc, CsdBytes::Sectors, Ok(2_097_152)),
];

#[test]
fn tells_capacities(rt: HostRuntime) {
    for &(kind, bytes, expected) in CAPACITIES.iter() {
        let found = Csd::read(kind, &bytes.register()).map(|csd| csd.blocks());
        assert!(rt; found == expected, "{kind:?} {bytes:?}");
    }
}

#[test]
fn reads_csds(rt: HostRuntime) {
    let rows = [
        (
            standard(0, 0x0a),
            (0, CsdLayout::Version1, 10, 3875, Some(7)),
        ),
        (
            high(0x09, [0, 0xed, 0xc8]),
            (1, CsdLayout::Version2, 9, 0xedc8, None),
        ),
    ];
    for (register, wanted) in rows {
        let csd = Csd::read(Kind::Sd, &register).expect(&rt, "a readable register");
        let found = (
            csd.csd_structure(),
            csd.layout(),
            csd.read_bl_len(),
            csd.c_size(),
            csd.c_size_mult(),
        );
        assert!(rt; found == wanted, "{register:?}");
    }
}

static SCRS: [([u8; 8], (u8, u8, bool, u8, bool, bool)); 2] = [
    ([0x02, 0x05, 0, 0, 0, 0, 0, 0], (0, 2, false, 5, true, true)),
    ([0x10, 0x81, 0, 0, 0, 0, 0, 0], (1, 0, true, 1, true, false)),
];

#[test]
fn reads_scrs(rt: HostRuntime) {
    for &(register, wanted) in SCRS.iter() {
        let scr = Scr::new(register);
        let found = (
            scr.scr_structure(),
            scr.sd_spec(),
            scr.data_stat_after_erase(),
            scr.sd_bus_widths(),
            scr.has_one_line(),
            scr.has_four_lines(),
        );
        assert!(rt; found == wanted, "{register:?}");
    }
}

#[test]
fn reads_an_ext_csd(rt: HostRuntime) {
    let mut register = [0; 512];
    register[179] = 0x4b;
    register[183] = 2;
    register[192] = 8;
    register[213] = 0x08;
    register[215] = 0x01;
    register[226] = 0x20;
    let ext_csd = ExtCsd::new(&register);
    let found = (
        ext_csd.partition_config(),
        ext_csd.partition_access(),
        ext_csd.bus_width(),
        ext_csd.ext_csd_rev(),
        ext_csd.sec_count(),
        ext_csd.boot_size_mult(),
        ext_csd.boot_blocks(),
    );
    assert!(rt; found == (0x4b, 3, 2, 8, 0x0100_0800, 0x20, 8192));
}
