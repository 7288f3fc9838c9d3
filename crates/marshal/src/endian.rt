//! The order of a number's bytes as a type.

ghost use Rattle.std.specs.Prelude.{◌≡◌, ℕ, List, refl};
ghost use Rattle.std.specs.Int.{Width, byte_len};
ghost use Rattle.marshal_core.specs.declared.order.Order.{Order};
ghost use Rattle.marshal_core.specs.declared.order.Order.TheVariants.{Big, Little};
ghost use Rattle.marshal_core.specs.Reading.{number};
ghost use Rattle.marshal_core.specs.Spelling.{number_bytes};
ghost use Rattle.marshal.specs.Orders.{big_reads, little_reads};

use byteorder::{BigEndian, ByteOrder, LittleEndian};

/// The order of a number's bytes.
pub trait Endian: ByteOrder {
    ghost order: { Order };

    // `byteorder` reads and writes numbers as the definitions say.
    ghost reads: { (w : Width) (xs : List ℕ) → Self.number_of (byte_len w) xs ≡ number order w xs };

    ghost writes: { (w : Width) (n : ℕ) → Self.bytes_of (byte_len w) n ≡ number_bytes order w n };
}

impl Endian for BigEndian {
    ghost order = { Big };

    ghost reads = { big_reads };

    ghost writes = { λ w n. refl };
}

impl Endian for LittleEndian {
    ghost order = { Little };

    ghost reads = { little_reads };

    ghost writes = { λ w n. refl };
}
