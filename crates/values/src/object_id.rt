// Object identifiers: ten bits of type and 22 of instance.
ghost use Rattle.std.specs.Prelude.{◌≡◌};
ghost use Rattle.types.specs.Answer.{paper_outcome};
ghost use Rattle.values.specs.ObjectId.{id_of, object_id_under, object_id_bytes, object_id_writable, ObjectIdWrites};
ghost use Rattle.values.specs.Reading.{object_id_case, paper_value};
ghost use Rattle.values.specs.Value.{cased};
ghost use Rattle.values.specs.Writing.{outcome_of};

use crate::value::ApplicationDataValue;
use types::Refusal;

// An object identifier.
#[derive(Clone, Copy)]
pub struct ObjectId {
    pub object_type: u16,
    pub instance: u32,
}

// The object identifier of four bytes; another length is refused.
#[tactic(auto, unfolding(crate::specs::ObjectId::object_id_under))]
pub(crate) fn read_object_id(
    len: u32,
    buf: &[u8],
    place: usize,
) -> Result<(ApplicationDataValue, usize), Refusal>
    ensures { paper_value result ≡ cased object_id_case (object_id_under len buf.now place) }
{
    if len != 4 {
        return Err(Refusal::LengthNotAllowed(len));
    }
    let (bits, next) = tags::read_four_bytes(buf, place)?;
    let id = ObjectId {
        object_type: (bits >> 22) as u16,
        instance: bits & 0x3F_FFFF,
    };
    Ok((ApplicationDataValue::ObjectId(id), next))
}

impl ObjectId {
    // Whether an identifier can be written: it fits ten bits and 22.
    #[tactic(auto, unfolding(crate::specs::ObjectId::object_id_writable))]
    pub(crate) fn writable(self) -> Result<(), Refusal>
        ensures { paper_outcome result ≡ outcome_of (object_id_writable (id_of self)) }
    {
        if 1023 < self.object_type || 4194303 < self.instance {
            return Err(Refusal::CannotBeWritten);
        }
        Ok(())
    }

    // The four bytes of an identifier that can be written.
    pub(crate) fn bytes(self) -> [u8; 4]
        requires { ObjectIdWrites (id_of self) }
        ensures { result ≡ object_id_bytes (id_of self) }
    {
        (u32::from(self.object_type) << 22 | self.instance).to_be_bytes()
    }
}
