//! The numbers of the format: its limits, its codes, and where the parts of a word stand.

/// The first word: the letters SDVT, the first one in the lowest byte.
pub const MAGIC: u32 = 0x5456_4453;

pub const VERSION: u32 = 2;

/// How many words the header has.
pub const HEADER_SIZE: usize = 8;

pub const MOST_NUMBERS: usize = 8;

pub const MOST_FLAGS: usize = 4;

pub const MOST_POINTS: usize = 8191;

/// A table has fewer words than so many: a row's place has 16 bits.
pub const TOO_MANY_WORDS: usize = 1 << 16;

/// The greatest count of guards in a case.
pub const MOST_GUARDS: usize = 6;

/// A command has fewer cases than so many.
pub const TOO_MANY_CASES: usize = 1 << 8;

/// The upper half of a word.
pub const UPPER: u32 = 1 << 16;

/// The second word of a number in two.
pub const HIGH: u64 = 1 << 32;

// The parts of the header's second word, above the version.
pub const PART_BOUND: u32 = 1 << 8;

pub const KIND: u32 = PART_BOUND;

pub const NUMBERS: u32 = KIND * PART_BOUND;

pub const FLAGS: u32 = NUMBERS * PART_BOUND;

// Kinds of cards.
pub const SD: u32 = 0;

pub const EMMC: u32 = 1;

pub const KINDS: u32 = 2;

/// How many loops are left, above the point in a target.
pub const LEAVE: u32 = 1 << 13;

pub const LEAVE_BOUND: u32 = 1 << 3;

// What kind of statement a point has. Its small parts stand above.
pub const SEND: u32 = 0;

pub const PHASE: u32 = 1;

pub const LET: u32 = 2;

pub const IF: u32 = 3;

pub const FLAG: u32 = 4;

pub const LINES: u32 = 5;

pub const LOOP: u32 = 6;

pub const BREAK: u32 = 7;

pub const DONE: u32 = 8;

pub const FAULT: u32 = 9;

/// The small parts of a statement, above its kind in the word of its point.
pub const SMALL: u32 = 1 << 4;

pub const SMALL_BOUND: u32 = 1 << 12;

// Data phases and waits.
pub const RECEIVE_BLOCKS: u32 = 0;

pub const RECEIVE_REGISTER: u32 = 1;

pub const GIVE_BLOCKS: u32 = 2;

pub const WAIT: u32 = 3;

// Numbers of data lines.
pub const ONE_LINE: u32 = 0;

pub const FOUR_LINES: u32 = 1;

pub const EIGHT_LINES: u32 = 2;

// Which card or application a command is sent to.
pub const AIM_RCA: u32 = 0;

pub const AIM_PLAIN: u32 = 1;

// What a variable is set to: three bits, and a variable's number above them.
pub const ATOM_NUMBER: u32 = 0;

pub const ATOM_VARIABLE: u32 = 1;

pub const ATOM_CSD_BLOCKS: u32 = 2;

pub const ATOM_EXT_BLOCKS: u32 = 3;

pub const ATOM_EXT_BOOT: u32 = 4;

/// The number of a variable, above its code.
pub const ATOM_NAMED: u32 = 1 << 3;

pub const ATOM_BOUND: u32 = 1 << 6;

// How it is changed.
pub const CHANGE_SAME: u32 = 0;

pub const CHANGE_PLUS: u32 = 1;

pub const CHANGE_MINUS: u32 = 2;

// What a variable is set to, and how that is changed, above the variable in the small parts.
pub const LET_ATOM: u32 = 1 << 4;

pub const LET_CHANGE: u32 = LET_ATOM * ATOM_BOUND;

/// The number of a flag, above whether it is set or cleared.
pub const FLAG_NAMED: u32 = 1 << 1;

// Conditions.
pub const CONDITION_FLAG: u32 = 0;

pub const CONDITION_AT_LEAST: u32 = 1;

pub const CONDITION_BELOW: u32 = 2;

// The unit of an address.
pub const UNIT_BLOCK: u32 = 0;

pub const UNIT_BYTE: u32 = 1;

pub const UNIT_BY: u32 = 2;

// Where an address lies: at a number, a variable, or a number behind a variable.
pub const POSITION_NUMBER: u32 = 0;

pub const POSITION_VARIABLE: u32 = 1;

pub const POSITION_BEHIND: u32 = 2;

/// The number of a flag or a variable, above the code of a condition, a unit or a position.
pub const NAMED: u32 = 1 << 2;

/// The position of an address, above its unit.
pub const ADDRESS_POSITION: u32 = 1 << 4;

// The aim of a command, and whether it has an address, above its index in the small parts.
pub const INDEX_BOUND: u8 = 1 << 6;

pub const COMMAND_AIM: u32 = 1 << 6;

pub const AIM_BOUND: u32 = 2;

pub const COMMAND_ADDRESS: u32 = COMMAND_AIM * AIM_BOUND;

// Guards. A state has its own number behind the other codes.
pub const GUARD_TIMEOUT: u32 = 1;

pub const GUARD_ANSWER: u32 = 2;

pub const GUARD_CLEAN: u32 = 3;

pub const GUARD_READY: u32 = 4;

pub const GUARD_APP: u32 = 5;

pub const GUARD_ECHO: u32 = 6;

pub const GUARD_OCR_READY: u32 = 7;

pub const GUARD_OCR_BLOCK: u32 = 8;

pub const GUARD_OK: u32 = 9;

pub const GUARD_STATE: u32 = 10;

/// The next guard, above the first one.
pub const NEXT_GUARD: u32 = 1 << 5;

// The response that is waited for: its number in the standard.
pub const EXPECT_NOTHING: u32 = 0;

pub const EXPECT_R1: u32 = 1;

pub const EXPECT_R2: u32 = 2;

pub const EXPECT_R3: u32 = 3;

pub const EXPECT_R6: u32 = 6;

pub const EXPECT_R7: u32 = 7;

// What follows a command on the data lines.
pub const NO_DATA: u32 = 0;

pub const BUSY: u32 = 1;

pub const BLOCKS_IN: u32 = 2;

pub const BLOCKS_OUT: u32 = 3;

pub const SCR: u32 = 4;

pub const SD_STATUS: u32 = 5;

pub const EXT_CSD: u32 = 6;

// Where the argument comes from.
pub const SOURCE_OWN: u32 = 0;

pub const SOURCE_RCA: u32 = 1;

pub const SOURCE_ADDRESS: u32 = 2;

// The parts of how a command is sent, in eight bits: the response, the data and the source of the argument.
pub const EXPECT_BOUND: u32 = 1 << 3;

pub const DATA_BOUND: u32 = 1 << 3;

pub const SOURCE_BOUND: u32 = 1 << 2;

pub const SENDING_BOUND: u32 = 1 << 8;

// These parts, and how many cases there are, above the announced count.
pub const ROW_EXPECT: u32 = UPPER;

pub const ROW_DATA: u32 = ROW_EXPECT * EXPECT_BOUND;

pub const ROW_SOURCE: u32 = ROW_DATA * DATA_BOUND;

pub const ROW_CASES: u32 = ROW_EXPECT * SENDING_BOUND;
