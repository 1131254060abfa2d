//! Each field but rows, keys and lists appended to bytes. After want of memory a part of it may stand there.
ghost use Rattle.std.specs.Prelude.{◌≡◌, ◌++◌, OnOk, OnErr};
ghost use Rattle.std.specs.Int.{w16, w32, w64, to_be_bytes};
ghost use Rattle.byte_fields.specs.Layout.{FitsText, FitsValue, text_bytes, value_bytes, FitsTicket, ticket_bytes};
ghost use Rattle.byte_fields.specs.Parts.{leg_bytes};
ghost use Rattle.byte_fields.specs.Appending.{Keeps};

use crate::appending::Appended;
use seata_types::{Leg, NoMemory, Ticket, Value};

pub(crate) fn bytes(out: &mut Vec<u8>, bytes: &[u8]) -> Result<(), NoMemory>
    ensures ok { OnOk result (out.new.items ≡ out.old.items ++ bytes.now) }
    ensures err { OnErr result (out.new.items ≡ out.old.items) }
    ensures kept { Keeps out.old.items out.new.items }
{
    out.extend_from_slice(bytes)?;
    Ok(())
}

pub(crate) fn text(out: &mut Vec<u8>, value: &str) -> Result<(), NoMemory>
    requires { FitsText value.now }
    ensures ok { OnOk result (out.new.items ≡ out.old.items ++ text_bytes value.now) }
    ensures kept { Keeps out.old.items out.new.items }
{
    bytes(out, &(value.len() as u16).to_be_bytes())?;
    bytes(out, value.as_bytes())
}

#[tactic(auto, unfolding(crate::specs::Layout::value_bytes))]
pub(crate) fn value(out: &mut Vec<u8>, value: &Value) -> Result<(), NoMemory>
    requires { FitsValue value.now }
    ensures ok { OnOk result (out.new.items ≡ out.old.items ++ value_bytes value.now) }
    ensures kept { Keeps out.old.items out.new.items }
{
    match value {
        Value::Int(number) => {
            bytes(out, &[0])?;
            bytes(out, &number.cast_unsigned().to_be_bytes())
        }
        Value::Text(value) => {
            bytes(out, &[1])?;
            text(out, value.as_str())
        }
    }
}

impl Appended for Ticket {
    ghost fits = { FitsTicket };

    ghost bytes = { ticket_bytes };

    #[tactic(auto, unfolding(crate::specs::Layout::ticket_bytes))]
    fn append(&self, out: &mut Vec<u8>) -> Result<(), NoMemory> {
        bytes(out, &self.boot.to_be_bytes())?;
        bytes(out, &self.seq.to_be_bytes())
    }
}

impl Appended for Leg {
    ghost fits = { λ leg. Unit {0} };

    ghost bytes = { leg_bytes };

    fn append(&self, out: &mut Vec<u8>) -> Result<(), NoMemory> {
        bytes(out, &self.xid.0.to_be_bytes())?;
        bytes(out, &self.branch.0.to_be_bytes())
    }
}
