//! The reserved words.

ghost use Rattle.std.specs.Prelude.{◌≡◌, find};
ghost use Rattle.sdv_script.specs.Keywords.{keyword_text, keywords, is_text};

/// A reserved word: no name may be spelled like it.
#[derive(Clone, Copy)]
pub enum Keyword {
    /// `card`
    Card,
    /// `sd`
    Sd,
    /// `emmc`
    Emmc,
    /// `flags`
    Flags,
    /// `nums`
    Nums,
    /// `send`
    Send,
    /// `else`
    Else,
    /// `recv`
    Recv,
    /// `reg`
    Reg,
    /// `give`
    Give,
    /// `wait`
    Wait,
    /// `ok`
    Ok,
    /// `let`
    Let,
    /// `if`
    If,
    /// `set`
    Set,
    /// `clear`
    Clear,
    /// `bus.lines`
    BusLines,
    /// `part.access`
    PartAccess,
    /// `loop`
    Loop,
    /// `break`
    Break,
    /// `done`
    Done,
    /// `fault`
    Fault,
    /// `csd.blocks`
    CsdBlocks,
    /// `ext.blocks`
    ExtBlocks,
    /// `ext.boot`
    ExtBoot,
    /// `at`
    At,
    /// `block`
    Block,
    /// `byte`
    Byte,
    /// `by`
    By,
    /// `timeout`
    Timeout,
    /// `answer`
    Answer,
    /// `clean`
    Clean,
    /// `ready`
    Ready,
    /// `app`
    App,
    /// `echo`
    Echo,
    /// `ocr.ready`
    OcrReady,
    /// `ocr.block`
    OcrBlock,
    /// `state`
    State,
    /// `none`
    None,
    /// `count`
    Count,
    /// `number`
    Number,
    /// `idle`
    Idle,
    /// `ident`
    Ident,
    /// `stby`
    Stby,
    /// `tran`
    Tran,
    /// `data`
    Data,
    /// `rcv`
    Rcv,
    /// `prg`
    Prg,
    /// `dis`
    Dis,
}

/// Every reserved word, in the order of the type.
pub const KEYWORDS: [Keyword; 49] = [
    Keyword::Card,
    Keyword::Sd,
    Keyword::Emmc,
    Keyword::Flags,
    Keyword::Nums,
    Keyword::Send,
    Keyword::Else,
    Keyword::Recv,
    Keyword::Reg,
    Keyword::Give,
    Keyword::Wait,
    Keyword::Ok,
    Keyword::Let,
    Keyword::If,
    Keyword::Set,
    Keyword::Clear,
    Keyword::BusLines,
    Keyword::PartAccess,
    Keyword::Loop,
    Keyword::Break,
    Keyword::Done,
    Keyword::Fault,
    Keyword::CsdBlocks,
    Keyword::ExtBlocks,
    Keyword::ExtBoot,
    Keyword::At,
    Keyword::Block,
    Keyword::Byte,
    Keyword::By,
    Keyword::Timeout,
    Keyword::Answer,
    Keyword::Clean,
    Keyword::Ready,
    Keyword::App,
    Keyword::Echo,
    Keyword::OcrReady,
    Keyword::OcrBlock,
    Keyword::State,
    Keyword::None,
    Keyword::Count,
    Keyword::Number,
    Keyword::Idle,
    Keyword::Ident,
    Keyword::Stby,
    Keyword::Tran,
    Keyword::Data,
    Keyword::Rcv,
    Keyword::Prg,
    Keyword::Dis,
];

impl Keyword {
    /// How the word is spelled.
    pub fn text(self) -> &'static str
        ensures { result.now ≡ keyword_text self }
    {
        match self {
            Keyword::Card => "card",
            Keyword::Sd => "sd",
            Keyword::Emmc => "emmc",
            Keyword::Flags => "flags",
            Keyword::Nums => "nums",
            Keyword::Send => "send",
            Keyword::Else => "else",
            Keyword::Recv => "recv",
            Keyword::Reg => "reg",
            Keyword::Give => "give",
            Keyword::Wait => "wait",
            Keyword::Ok => "ok",
            Keyword::Let => "let",
            Keyword::If => "if",
            Keyword::Set => "set",
            Keyword::Clear => "clear",
            Keyword::BusLines => "bus.lines",
            Keyword::PartAccess => "part.access",
            Keyword::Loop => "loop",
            Keyword::Break => "break",
            Keyword::Done => "done",
            Keyword::Fault => "fault",
            Keyword::CsdBlocks => "csd.blocks",
            Keyword::ExtBlocks => "ext.blocks",
            Keyword::ExtBoot => "ext.boot",
            Keyword::At => "at",
            Keyword::Block => "block",
            Keyword::Byte => "byte",
            Keyword::By => "by",
            Keyword::Timeout => "timeout",
            Keyword::Answer => "answer",
            Keyword::Clean => "clean",
            Keyword::Ready => "ready",
            Keyword::App => "app",
            Keyword::Echo => "echo",
            Keyword::OcrReady => "ocr.ready",
            Keyword::OcrBlock => "ocr.block",
            Keyword::State => "state",
            Keyword::None => "none",
            Keyword::Count => "count",
            Keyword::Number => "number",
            Keyword::Idle => "idle",
            Keyword::Ident => "ident",
            Keyword::Stby => "stby",
            Keyword::Tran => "tran",
            Keyword::Data => "data",
            Keyword::Rcv => "rcv",
            Keyword::Prg => "prg",
            Keyword::Dis => "dis",
        }
    }

    /// The reserved word that is spelled so.
    pub fn read(word: &[u8]) -> Option<Keyword>
        ensures { result ≡ find (λ k. is_text k word.now) keywords }
    {
        KEYWORDS
            .iter()
            .copied()
            .find(|keyword| keyword.text().as_bytes() == word)
    }
}
