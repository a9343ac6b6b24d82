// A call as a line of a script has it.
use crate::script;
use calls::Call;
use page::Access;
use std::fmt;
use std::fmt::{Display, Formatter, Write};

// A register by its name, or by its offset where no register is there.
#[derive(Clone, Copy)]
struct Register(u32);

// A call as a line has it.
#[derive(Clone, Copy)]
pub struct Spelled(pub Call);

impl Display for Register {
    fn fmt<W: Write>(&self, f: &mut Formatter<W>) -> fmt::Result {
        match script::REGISTERS.get(self.0 as usize / 4) {
            Some(name) if self.0 % 4 == 0 => f.write_str(name),
            _ => write!(f, "{:02X}", self.0),
        }
    }
}

// A write has a name of its own where it acknowledges.
impl Display for Spelled {
    fn fmt<W: Write>(&self, f: &mut Formatter<W>) -> fmt::Result {
        match self.0 {
            Call::Write(script::ACKNOWLEDGE, 1) => f.write_str("acknowledge"),
            Call::Write(offset, value) => write!(f, "write {} {value:X}", Register(offset)),
            Call::Read(offset) => write!(f, "read {}", Register(offset)),
            Call::Request(va, Access::Read) => write!(f, "request r {:06X}", va.0),
            Call::Request(va, Access::Write) => write!(f, "request w {:06X}", va.0),
            Call::Drop => f.write_str("drop"),
            Call::Shift(va) => write!(f, "shift {:06X}", va.0),
        }
    }
}
