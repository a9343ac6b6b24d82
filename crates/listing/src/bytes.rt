// Bytes put into a memory, and a mapping as a record's bytes.
ghost use Rattle.std.specs.Prelude.{◌≡◌, ◌+◌, ◌≤◌};
ghost use Rattle.listing.specs.Names.{length};
ghost use Rattle.records.specs.Mappings.{record_of};
ghost use Rattle.wire.specs.Words.{pasted};

use records::Mapping;

// Bytes, into a memory from an index on that has room for them.
pub(crate) fn put(out: &mut [u8], at: usize, s: &[u8])
    requires { at + length s.now ≤ length out.old }
    ensures { out.new ≡ pasted out.old at s.now }
{
    wire::put_bytes(out, at, s);
}

// A mapping's record.
pub(crate) fn record_of(m: Mapping) -> [u8; 12]
    ensures { result ≡ record_of m }
{
    let [a, b, c, d] = m.at.0.to_le_bytes();
    let [e, f, g, h] = m.to.0.to_le_bytes();
    let kind = page::type_of(m.kind) as u8;
    [a, b, c, d, e, f, g, h, kind, (m.access % 256) as u8, 0, 0]
}
