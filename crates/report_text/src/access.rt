//! The lines of accesses: in a trace, and in the report of a raw script.

ghost use Rattle.std.specs.Prelude.{◌≡◌, ◌+◌, ◌≤◌, ◌++◌, length};
ghost use Rattle.std.specs.Fmt.{decimal};
ghost use Rattle.vt_types.specs.Access.{CfgStore, Diag, IsWithinLimits, Put, Store, Swap, access_value};
ghost use Rattle.vt_types.specs.Limits.{LONGEST_BUFFER};
ghost use Rattle.vt_types.specs.Program.{got};
ghost use Rattle.report_text.specs.Access.{access_line, access_text, address, answer_text, answer_width, offset, raw_line, turn_text};
ghost use Rattle.report_text.specs.Text.{Added};
ghost use Rattle.report_text.specs.Words.{word};

use crate::text::{LINE_SPARE, SHORT_SPARE, Text};
use vt_types::{Access, Answer, Room, Turn};

/// Spare bytes that are enough for an access.
const ACCESS_SPARE: u32 = 16_512;

/// Spare bytes that are enough for an access without bytes.
const WORDS_SPARE: u32 = 128;

/// Spare bytes that are enough for a name and three words.
const CONFIG_SPARE: u32 = 96;

/// Spare bytes that are enough for an answer.
pub(crate) const ANSWER_SPARE: u32 = 16_448;

/// How many bytes the number has that answers an access: those of a load's width, else 8.
pub(crate) fn answer_width(a: &Access<'_>) -> u8
    requires { IsWithinLimits (access_value a.now) }
    ensures value { result ≡ answer_width (access_value a.now) }
    ensures few { result ≤ 8 }
{
    match *a {
        Access::Load { width, .. } | Access::CfgLoad { width, .. } => width,
        Access::Store { .. }
        | Access::Put { .. }
        | Access::Get { .. }
        | Access::Zero { .. }
        | Access::Swap { .. }
        | Access::CfgStore { .. }
        | Access::Ssch { .. }
        | Access::Tsch { .. }
        | Access::Stsch { .. }
        | Access::Msch { .. }
        | Access::Csch { .. }
        | Access::Turn { .. }
        | Access::Diag { .. } => 8,
    }
}

/// How a turn of a channel program ended.
pub(crate) fn turn_name(turn: Turn) -> &'static str
    ensures name { result.now ≡ turn_text turn }
    ensures short { length result.now ≤ 16 }
{
    match turn {
        Turn::Idle => "idle",
        Turn::Going => "data",
        Turn::Ended => "ended",
        Turn::ProgramCheck => "program-check",
        Turn::IncorrectLength => "incorrect-length",
        Turn::UnitCheck => "unit-check",
    }
}

impl Text {
    /// Adds the line of an access with its answer, as a trace has it. The bytes of a get are in the room.
    pub fn access(&mut self, a: &Access<'_>, answer: &Answer, room: &Room)
        requires limits { IsWithinLimits (access_value a.now) }
        requires spare { LINE_SPARE ≤ self.old.spare }
        ensures added { Added self.old self.new (access_line (access_value a.now) answer.now (got answer.now room.now.items)) }
        ensures spare { self.old.spare ≤ self.new.spare + LINE_SPARE }
    {
        self.text(". ");
        self.access_text(a);
        self.text(" = ");
        self.answer_text(a, answer, room);
        self.text("\n");
    }

    /// Adds the line of an access in the report of a raw script: the number of the script's line, and the answer. The
    /// bytes of a get are in the room.
    pub fn raw(&mut self, line: u32, a: &Access<'_>, answer: &Answer, room: &Room)
        requires limits { IsWithinLimits (access_value a.now) }
        requires spare { LINE_SPARE ≤ self.old.spare }
        ensures added { Added self.old self.new (raw_line line (access_value a.now) answer.now (got answer.now room.now.items)) }
        ensures spare { self.old.spare ≤ self.new.spare + LINE_SPARE }
    {
        self.number(line as u64);
        self.text(" ");
        self.answer_text(a, answer, room);
        self.text("\n");
    }

    /// Adds an access.
    fn access_text(&mut self, a: &Access<'_>)
        requires limits { IsWithinLimits (access_value a.now) }
        requires spare { ACCESS_SPARE ≤ self.old.spare }
        ensures added { Added self.old self.new (access_text (access_value a.now)) }
        ensures spare { self.old.spare ≤ self.new.spare + ACCESS_SPARE }
    {
        match *a {
            Access::Load { addr, width } => self.counted("load", addr, width as u64),
            Access::Store { addr, width, value } => self.store(addr, width, value),
            Access::Put { addr, bytes } => self.put(addr, bytes),
            Access::Get { addr, count } => self.counted("get", addr, count as u64),
            Access::Zero { addr, count } => self.counted("zero", addr, count as u64),
            Access::Swap { addr, value } => self.swap(addr, value),
            Access::CfgLoad { func, off, width } => self.config("cfgload", func, off, width),
            Access::CfgStore {
                func,
                off,
                width,
                value,
            } => self.config_store(func, off, width, value),
            Access::Ssch { id, addr } => self.channel("ssch", id, addr),
            Access::Tsch { id, addr } => self.channel("tsch", id, addr),
            Access::Stsch { id, addr } => self.channel("stsch", id, addr),
            Access::Msch { id, addr } => self.channel("msch", id, addr),
            Access::Csch { id } => self.named_address("csch", id as u64),
            Access::Turn { id } => self.named_address("turn", id as u64),
            Access::Diag {
                func,
                id,
                value,
                cookie,
            } => self.diag(func, id, value, cookie),
        }
    }

    /// Adds an access of a name, an address, and a width or a count.
    fn counted(&mut self, name: &str, addr: u64, n: u64)
        requires short { length name.now ≤ 8 }
        requires spare { SHORT_SPARE ≤ self.old.spare }
        ensures added { Added self.old self.new (name.now ++ word (address addr) ++ word (decimal n)) }
        ensures spare { self.old.spare ≤ self.new.spare + SHORT_SPARE }
    {
        self.named_address(name, addr);
        self.number_word(n);
    }

    /// Adds a store of a register: the value in the digits of its width, at most 8 bytes.
    fn store(&mut self, addr: u64, width: u8, value: u32)
        requires width { width ≤ 8 }
        requires spare { WORDS_SPARE ≤ self.old.spare }
        ensures added { Added self.old self.new (access_text (Store addr width value)) }
        ensures spare { self.old.spare ≤ self.new.spare + WORDS_SPARE }
    {
        self.counted("store", addr, width as u64);
        self.low_digits_word(width, value as u64);
    }

    /// Adds a put: at most `LONGEST_BUFFER` bytes.
    fn put(&mut self, addr: u64, bytes: &[u8])
        requires few { length bytes.now ≤ LONGEST_BUFFER }
        requires spare { ACCESS_SPARE ≤ self.old.spare }
        ensures added { Added self.old self.new (access_text (Put addr bytes.now)) }
        ensures spare { self.old.spare ≤ self.new.spare + ACCESS_SPARE }
    {
        self.named_address("put", addr);
        self.hex_word(bytes);
    }

    /// Adds a swap.
    fn swap(&mut self, addr: u64, value: u64)
        requires { WORDS_SPARE ≤ self.old.spare }
        ensures added { Added self.old self.new (access_text (Swap addr value)) }
        ensures spare { self.old.spare ≤ self.new.spare + WORDS_SPARE }
    {
        self.named_address("swap", addr);
        self.low_digits_word(8, value);
    }

    /// Adds an access of a configuration space: its name, the function, the offset and the width.
    fn config(&mut self, name: &str, func: u8, off: u16, width: u8)
        requires short { length name.now ≤ 8 }
        requires spare { CONFIG_SPARE ≤ self.old.spare }
        ensures added { Added self.old self.new (name.now ++ word (decimal func) ++ word (offset off) ++ word (decimal width)) }
        ensures spare { self.old.spare ≤ self.new.spare + CONFIG_SPARE }
    {
        self.named_number(name, func as u64);
        self.offset_word(off);
        self.number_word(width as u64);
    }

    /// Adds a store in a configuration space: the value in the digits of its width, at most 8 bytes.
    fn config_store(&mut self, func: u8, off: u16, width: u8, value: u32)
        requires width { width ≤ 8 }
        requires spare { WORDS_SPARE ≤ self.old.spare }
        ensures added { Added self.old self.new (access_text (CfgStore func off width value)) }
        ensures spare { self.old.spare ≤ self.new.spare + WORDS_SPARE }
    {
        self.config("cfgstore", func, off, width);
        self.low_digits_word(width, value as u64);
    }

    /// Adds a channel instruction with the address of a block.
    fn channel(&mut self, name: &str, id: u32, addr: u64)
        requires short { length name.now ≤ 8 }
        requires spare { WORDS_SPARE ≤ self.old.spare }
        ensures added { Added self.old self.new (name.now ++ word (address id) ++ word (address addr)) }
        ensures spare { self.old.spare ≤ self.new.spare + WORDS_SPARE }
    {
        self.named_address(name, id as u64);
        self.address_word(addr);
    }

    /// Adds a diagnose: the function, the subchannel, the value and the cookie.
    fn diag(&mut self, func: u64, id: u32, value: u64, cookie: u64)
        requires { WORDS_SPARE ≤ self.old.spare }
        ensures added { Added self.old self.new (access_text (Diag func id value cookie)) }
        ensures spare { self.old.spare ≤ self.new.spare + WORDS_SPARE }
    {
        self.named_digits("diag", 8, func);
        self.address_word(id as u64);
        self.low_digits_word(8, value);
        self.low_digits_word(8, cookie);
    }

    /// Adds the answer of an access. The bytes of a get are in the room.
    fn answer_text(&mut self, a: &Access<'_>, answer: &Answer, room: &Room)
        requires limits { IsWithinLimits (access_value a.now) }
        requires spare { ANSWER_SPARE ≤ self.old.spare }
        ensures added { Added self.old self.new (answer_text (access_value a.now) answer.now (got answer.now room.now.items)) }
        ensures spare { self.old.spare ≤ self.new.spare + ANSWER_SPARE }
    {
        match *answer {
            Answer::Word(n) => self.low_digits(answer_width(a), n),
            Answer::Done => self.text("ok"),
            Answer::Got => self.named_hex("bytes", room.as_slice()),
            Answer::Outside => self.text("outside"),
            Answer::Code(code) => self.named_number("cc", code as u64),
            Answer::Turned(turn) => self.text(turn_name(turn)),
            Answer::NoSuch => self.text("none"),
        }
    }
}
