//! What is asked of types.
ghost use Rattle.std.specs.Prelude.{OnOk};
ghost use Rattle.byte_codec.specs.Codecs.{Codec, Writes, Reads};
ghost use Rattle.argument_codec.specs.Types.{content, kind, cardinality, updatability, scalar, offered, prop_request, mutability, type_request};

use crate::form::{ArgumentForm, put, put_five, put_four, put_three, put_two, take};
use byte_codec::coded::Coded;
use byte_codec::reader::Reader;
use byte_codec::stop::{DecodeStop, EncodeStop};
use cm_base::value::Scalar;
use cm_types::definition::ContentAllowed;
use cm_types::property::{Cardinality, Choice, PropertyKind, Updatability};
use cm_types::request::{MutabilityRequest, PropRequest, TypeRequest};
use std::alloc::Global;

impl Coded<ArgumentForm> for Scalar {
    ghost codec = { scalar };

    fn write(&self, out: &mut Vec<u8>) -> Result<(), EncodeStop> {
        match self {
            Scalar::Flag(flag) => {
                out.push(0)?;
                put(flag, out)
            }
            Scalar::Whole(number) => {
                out.push(1)?;
                put(number, out)
            }
            Scalar::Time(moment) => {
                out.push(2)?;
                put(moment, out)
            }
            Scalar::Words(text) => {
                out.push(3)?;
                put(text, out)
            }
        }
    }

    fn read(alloc: Global, from: &mut Reader<'_>) -> Result<Scalar, DecodeStop> {
        match from.byte() {
            Some(0) => Ok(Scalar::Flag(take(alloc, from)?)),
            Some(1) => Ok(Scalar::Whole(take(alloc, from)?)),
            Some(2) => Ok(Scalar::Time(take(alloc, from)?)),
            Some(3) => Ok(Scalar::Words(take(alloc, from)?)),
            _ => Err(DecodeStop::NotAnEntry),
        }
    }
}

impl Coded<ArgumentForm> for Choice {
    ghost codec = { offered };

    fn write(&self, out: &mut Vec<u8>) -> Result<(), EncodeStop> {
        put_two(&self.display_name, &self.value, out)?;
        Ok(())
    }

    fn read(alloc: Global, from: &mut Reader<'_>) -> Result<Choice, DecodeStop> {
        let (display_name, value) = take(alloc, from)?;
        Ok(Choice {
            display_name,
            value,
        })
    }
}

impl Coded<ArgumentForm> for ContentAllowed {
    ghost codec = { content };

    fn write(&self, out: &mut Vec<u8>) -> Result<(), EncodeStop> {
        match self {
            ContentAllowed::NotAllowed => out.push(0)?,
            ContentAllowed::Allowed => out.push(1)?,
            ContentAllowed::Required => out.push(2)?,
        }
        Ok(())
    }

    fn read(_alloc: Global, from: &mut Reader<'_>) -> Result<ContentAllowed, DecodeStop> {
        match from.byte() {
            Some(0) => Ok(ContentAllowed::NotAllowed),
            Some(1) => Ok(ContentAllowed::Allowed),
            Some(2) => Ok(ContentAllowed::Required),
            _ => Err(DecodeStop::NotAnEntry),
        }
    }
}

impl Coded<ArgumentForm> for PropertyKind {
    ghost codec = { kind };

    fn write(&self, out: &mut Vec<u8>) -> Result<(), EncodeStop> {
        match self {
            PropertyKind::Boolean => out.push(0)?,
            PropertyKind::Integer => out.push(1)?,
            PropertyKind::Datetime => out.push(2)?,
            PropertyKind::String => out.push(3)?,
            PropertyKind::Uri => out.push(4)?,
            PropertyKind::Id => out.push(5)?,
            PropertyKind::Html => out.push(6)?,
        }
        Ok(())
    }

    fn read(_alloc: Global, from: &mut Reader<'_>) -> Result<PropertyKind, DecodeStop> {
        match from.byte() {
            Some(0) => Ok(PropertyKind::Boolean),
            Some(1) => Ok(PropertyKind::Integer),
            Some(2) => Ok(PropertyKind::Datetime),
            Some(3) => Ok(PropertyKind::String),
            Some(4) => Ok(PropertyKind::Uri),
            Some(5) => Ok(PropertyKind::Id),
            Some(6) => Ok(PropertyKind::Html),
            _ => Err(DecodeStop::NotAnEntry),
        }
    }
}

impl Coded<ArgumentForm> for Cardinality {
    ghost codec = { cardinality };

    fn write(&self, out: &mut Vec<u8>) -> Result<(), EncodeStop> {
        match self {
            Cardinality::Single => out.push(0)?,
            Cardinality::Multi => out.push(1)?,
        }
        Ok(())
    }

    fn read(_alloc: Global, from: &mut Reader<'_>) -> Result<Cardinality, DecodeStop> {
        match from.byte() {
            Some(0) => Ok(Cardinality::Single),
            Some(1) => Ok(Cardinality::Multi),
            _ => Err(DecodeStop::NotAnEntry),
        }
    }
}

impl Coded<ArgumentForm> for Updatability {
    ghost codec = { updatability };

    fn write(&self, out: &mut Vec<u8>) -> Result<(), EncodeStop> {
        match self {
            Updatability::ReadOnly => out.push(0)?,
            Updatability::ReadWrite => out.push(1)?,
            Updatability::OnCreate => out.push(2)?,
            Updatability::WhenCheckedOut => out.push(3)?,
        }
        Ok(())
    }

    fn read(_alloc: Global, from: &mut Reader<'_>) -> Result<Updatability, DecodeStop> {
        match from.byte() {
            Some(0) => Ok(Updatability::ReadOnly),
            Some(1) => Ok(Updatability::ReadWrite),
            Some(2) => Ok(Updatability::OnCreate),
            Some(3) => Ok(Updatability::WhenCheckedOut),
            _ => Err(DecodeStop::NotAnEntry),
        }
    }
}

impl Coded<ArgumentForm> for PropRequest {
    ghost codec = { prop_request };

    fn write(&self, out: &mut Vec<u8>) -> Result<(), EncodeStop> {
        put(&self.id, out)?;
        put_five(
            &self.local_name,
            &self.local_namespace,
            &self.display_name,
            &self.query_name,
            &self.description,
            out,
        )?;
        put_three(&self.kind, &self.cardinality, &self.updatability, out)?;
        put_four(
            &self.required,
            &self.queryable,
            &self.orderable,
            &self.open_choice,
            out,
        )?;
        put_two(&self.choices, &self.default, out)?;
        put_three(&self.max_length, &self.min_value, &self.max_value, out)?;
        Ok(())
    }

    fn read(alloc: Global, from: &mut Reader<'_>) -> Result<PropRequest, DecodeStop> {
        let (
            id,
            (
                (local_name, (local_namespace, (display_name, (query_name, description)))),
                (
                    (kind, (cardinality, updatability)),
                    (
                        (required, (queryable, (orderable, open_choice))),
                        ((choices, default), (max_length, (min_value, max_value))),
                    ),
                ),
            ),
        ) = take(alloc, from)?;
        Ok(PropRequest {
            id,
            local_name,
            local_namespace,
            display_name,
            query_name,
            description,
            kind,
            cardinality,
            updatability,
            required,
            queryable,
            orderable,
            open_choice,
            choices,
            default,
            max_length,
            min_value,
            max_value,
        })
    }
}

impl Coded<ArgumentForm> for MutabilityRequest {
    ghost codec = { mutability };

    fn write(&self, out: &mut Vec<u8>) -> Result<(), EncodeStop> {
        put_three(&self.create, &self.update, &self.delete, out)?;
        Ok(())
    }

    fn read(alloc: Global, from: &mut Reader<'_>) -> Result<MutabilityRequest, DecodeStop> {
        let (create, (update, delete)) = take(alloc, from)?;
        Ok(MutabilityRequest {
            create,
            update,
            delete,
        })
    }
}

impl Coded<ArgumentForm> for TypeRequest {
    ghost codec = { type_request };

    fn write(&self, out: &mut Vec<u8>) -> Result<(), EncodeStop> {
        put_three(&self.id, &self.base, &self.parent, out)?;
        put_five(
            &self.local_name,
            &self.local_namespace,
            &self.display_name,
            &self.query_name,
            &self.description,
            out,
        )?;
        put_five(
            &self.creatable,
            &self.fileable,
            &self.queryable,
            &self.fulltext_indexed,
            &self.included_in_supertype_query,
            out,
        )?;
        put_three(
            &self.controllable_policy,
            &self.controllable_acl,
            &self.mutability,
            out,
        )?;
        put_four(
            &self.versionable,
            &self.content_allowed,
            &self.allowed_source_types,
            &self.allowed_target_types,
            out,
        )?;
        put(&self.properties, out)?;
        Ok(())
    }

    fn read(alloc: Global, from: &mut Reader<'_>) -> Result<TypeRequest, DecodeStop> {
        let (
            (id, (base, parent)),
            (
                (local_name, (local_namespace, (display_name, (query_name, description)))),
                (
                    (
                        creatable,
                        (fileable, (queryable, (fulltext_indexed, included_in_supertype_query))),
                    ),
                    (
                        (controllable_policy, (controllable_acl, mutability)),
                        (
                            (
                                versionable,
                                (content_allowed, (allowed_source_types, allowed_target_types)),
                            ),
                            properties,
                        ),
                    ),
                ),
            ),
        ) = take(alloc, from)?;
        Ok(TypeRequest {
            id,
            base,
            parent,
            local_name,
            local_namespace,
            display_name,
            query_name,
            description,
            creatable,
            fileable,
            queryable,
            fulltext_indexed,
            included_in_supertype_query,
            controllable_policy,
            controllable_acl,
            mutability,
            versionable,
            content_allowed,
            allowed_source_types,
            allowed_target_types,
            properties,
        })
    }
}
