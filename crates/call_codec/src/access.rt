//! Calls: their fields one after the other.
ghost use Rattle.std.specs.Prelude.{OnOk};
ghost use Rattle.byte_codec.specs.Codecs.{Codec, Writes, Reads};
ghost use Rattle.call_codec.specs.Calls.{apply_policy, remove_policy, apply_acl};

use crate::form::CallForm;
use access_parts::writes::ApplyAcl;
use argument_codec::form::{put_four, put_three, put_two, take};
use byte_codec::coded::Coded;
use byte_codec::reader::Reader;
use byte_codec::stop::{DecodeStop, EncodeStop};
use policy_parts::writes::{ApplyPolicy, RemovePolicy};
use std::alloc::Global;

impl Coded<CallForm> for ApplyPolicy {
    ghost codec = { apply_policy };

    fn write(&self, out: &mut Vec<u8>) -> Result<(), EncodeStop> {
        put_three(&self.place, &self.succinct, &self.policy, out)?;
        Ok(())
    }

    fn read(alloc: Global, from: &mut Reader<'_>) -> Result<ApplyPolicy, DecodeStop> {
        let (place, (succinct, policy)) = take(alloc, from)?;
        Ok(ApplyPolicy {
            place,
            succinct,
            policy,
        })
    }
}

impl Coded<CallForm> for RemovePolicy {
    ghost codec = { remove_policy };

    fn write(&self, out: &mut Vec<u8>) -> Result<(), EncodeStop> {
        put_two(&self.place, &self.policy, out)?;
        Ok(())
    }

    fn read(alloc: Global, from: &mut Reader<'_>) -> Result<RemovePolicy, DecodeStop> {
        let (place, policy) = take(alloc, from)?;
        Ok(RemovePolicy { place, policy })
    }
}

impl Coded<CallForm> for ApplyAcl {
    ghost codec = { apply_acl };

    fn write(&self, out: &mut Vec<u8>) -> Result<(), EncodeStop> {
        put_four(&self.place, &self.add, &self.remove, &self.propagation, out)?;
        Ok(())
    }

    fn read(alloc: Global, from: &mut Reader<'_>) -> Result<ApplyAcl, DecodeStop> {
        let (place, (add, (remove, propagation))) = take(alloc, from)?;
        Ok(ApplyAcl {
            place,
            add,
            remove,
            propagation,
        })
    }
}
