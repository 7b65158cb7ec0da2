//! What createType, updateType and deleteType make of the list of types (CMIS 1.1, sections 2.2.2.6 to 2.2.2.8).
ghost use Rattle.std.specs.Prelude.{◌≡◌, ◌||◌, IfOk, nat_le, length, option_and_then};
ghost use Rattle.std.specs.Option.{option_copied};
ghost use Rattle.std.specs.List.{list_any};
ghost use Rattle.cm_base.specs.Judged.{Meets};
ghost use Rattle.cm_types.specs.Types.{type_in, chain, longest_chain, is_child_type};
ghost use Rattle.cm_types.specs.Changes.{placed_type, without_type, sorted_types, lacks_parent, is_taken, breaks_type_rule, breaks_def_rule, is_taken_prop, judge_below, judge_change_of, judge_removal_of, judge_new_type, judge_with_type, breaks_change_rule, judge_changed_type, judge_with_change, judge_removed_type, judge_without_type, new_props, made_props};

use crate::scan::{has_child, is_name_taken, is_prop_taken};
use crate::types::{Types, longest_chain};
use cm_base::cause::Cause;
use cm_base::copies::Copies;
use cm_base::fail::Fail;
use cm_base::text::Text;
use cm_types::definition::{TypeDef, TypeDefs};
use cm_types::property::PropDef;
use cm_types::request::TypeRequest;
use std::alloc::{AllocError, Global};
use type_requests::changes::{changes_attributes, changes_old_props};
use type_requests::clash::has_clash;
use type_requests::made::{changed_type, made_all, made_new, made_type, query_name_of};
use type_requests::placed::{joined, sorted_props};
use type_requests::rules::{
    are_required, are_wrong, are_wrongly_ordered, breaks_attribute_rule, give_many, new_give_many,
};

impl Types {
    // With the type in its place, instead of one of its id.
    fn with_def(&self, alloc: Global, def: TypeDef) -> Result<Types, AllocError>
        ensures { IfOk result (λ types. types ≡ placed_type def self.now) }
    {
        let _sorted = self.map.len();
        let id = def.id.copied(alloc)?;
        let map = self.map.with(alloc, id, def)?;
        Ok(Types { map })
    }

    /// The types in byte order of their ids, a later one in place of an earlier one of its id.
    pub fn from_defs(alloc: Global, defs: &TypeDefs) -> Result<Types, AllocError>
        ensures { IfOk result (λ types. types ≡ sorted_types defs.now) }
    {
        let defs = defs.as_slice();
        let mut types = Types::empty(alloc);
        for def in defs {
            let copy = def.copied(alloc)?;
            let more = types.with_def(alloc, copy)?;
            types = more;
        }
        Ok(types)
    }

    fn without_def(&self, alloc: Global, id: &Text) -> Result<Types, AllocError>
        ensures { IfOk result (λ types. types ≡ without_type self.now id.now) }
    {
        let map = self.map.without(alloc, id)?;
        Ok(Types { map })
    }

    fn lacks_parent(&self, request: &TypeRequest) -> bool
        ensures { result ≡ lacks_parent self.now request.now }
    {
        match &request.parent {
            Some(parent) => self.find(parent).is_none(),
            None => false,
        }
    }

    fn is_taken(&self, request: &TypeRequest) -> bool
        ensures { result ≡ is_taken self.now request.now }
    {
        is_name_taken(&self.map, &request.id, query_name_of(request))
    }

    fn is_taken_prop(&self, def: &PropDef) -> bool
        ensures { result ≡ is_taken_prop self.now def.now }
    {
        is_prop_taken(&self.map, def)
    }

    fn are_taken(&self, defs: &[PropDef]) -> bool
        ensures { result ≡ list_any (is_taken_prop self.now) defs.now }
    {
        defs.iter().any(|d| self.is_taken_prop(d))
    }

    fn has_subtype(&self, id: &Text) -> bool
        ensures { result ≡ list_any (is_child_type id.now) self.now }
    {
        has_child(&self.map, id)
    }

    fn parent_of(&self, request: &TypeRequest) -> Option<&TypeDef>
        ensures { option_copied result ≡ option_and_then (type_in self.now) request.now.parent }
    {
        match &request.parent {
            Some(parent) => self.find(parent),
            None => None,
        }
    }

    fn has_full_chain(&self, def: &TypeDef) -> bool
        ensures { result ≡ nat_le longest_chain (length (chain self.now def.now.id)) }
    {
        longest_chain() <= self.chain_len(longest_chain(), &def.id)
    }

    fn breaks_def_rule(&self, alloc: Global, defs: &[PropDef]) -> Result<bool, AllocError>
        ensures { IfOk result (λ b. b ≡ breaks_def_rule self.now defs.now) }
    {
        if are_wrong(defs) || are_wrongly_ordered(defs) || self.are_taken(defs) {
            return Ok(true);
        }
        has_clash(alloc, defs)
    }

    fn breaks_type_rule(
        &self,
        alloc: Global,
        parent: &TypeDef,
        request: &TypeRequest,
        made: &[PropDef],
    ) -> Result<bool, AllocError>
        requires { made.now ≡ made_props request.now.properties }
        ensures { IfOk result (λ b. b ≡ breaks_type_rule self.now parent.now request.now) }
    {
        if !request.base.is_str(parent.base.id())
            || self.has_full_chain(parent)
            || breaks_attribute_rule(parent, request)
            || give_many(request.properties.as_slice())
        {
            return Ok(true);
        }
        self.breaks_def_rule(alloc, made)
    }

    // The type that the request makes below its parent.
    fn made_below(
        &self,
        alloc: Global,
        parent: &TypeDef,
        request: &TypeRequest,
    ) -> Result<TypeDef, Fail>
        ensures { Meets (λ t. t) result (judge_below self.now parent.now request.now) }
    {
        if !parent.mutability.create {
            return Err(Fail::Refused(Cause::TypeFixed));
        }
        let made = made_all(alloc, request.properties.as_slice())?;
        if self.breaks_type_rule(alloc, parent, request, made.as_slice())? {
            return Err(Fail::Refused(Cause::TypeRule));
        }
        let properties = sorted_props(alloc, made.as_slice())?;
        let def = made_type(alloc, parent, request, properties)?;
        Ok(def)
    }

    fn made_new(&self, alloc: Global, request: &TypeRequest) -> Result<TypeDef, Fail>
        ensures { Meets (λ t. t) result (judge_new_type self.now request.now) }
    {
        if self.lacks_parent(request) {
            return Err(Fail::Refused(Cause::TypeNotFound));
        }
        if self.is_taken(request) {
            return Err(Fail::Refused(Cause::TypeTaken));
        }
        match self.parent_of(request) {
            Some(parent) => self.made_below(alloc, parent, request),
            None => Err(Fail::Refused(Cause::TypeRule)),
        }
    }

    /// The list with the type that the request makes, in byte order of the ids.
    ///
    /// The causes in their order: TypeNotFound for a parent that isn't there; TypeTaken for an id or query name that another type
    /// has; TypeFixed for a parent that allows no subtypes; TypeRule for what breaks a rule, also without a parent.
    #[tactic(auto, using(cm_types::proofs::Exits::fails_bind))]
    pub fn with_type(&self, alloc: Global, new: &TypeRequest) -> Result<Types, Fail>
        ensures { Meets (λ types. types) result (judge_with_type self.now new.now) }
    {
        let def = self.made_new(alloc, new)?;
        let types = self.with_def(alloc, def)?;
        Ok(types)
    }

    fn breaks_change_rule(
        &self,
        alloc: Global,
        def: &TypeDef,
        request: &TypeRequest,
        made: &[PropDef],
    ) -> Result<bool, AllocError>
        requires { made.now ≡ made_props (new_props def.now.properties request.now.properties) }
        ensures { IfOk result (λ b. b ≡ breaks_change_rule self.now def.now request.now) }
    {
        if changes_attributes(def, request)
            || changes_old_props(def.properties.as_slice(), request.properties.as_slice())
            || are_required(made)
            || new_give_many(def.properties.as_slice(), request.properties.as_slice())
        {
            return Ok(true);
        }
        self.breaks_def_rule(alloc, made)
    }

    // The type as the request changes it.
    fn changed_at(
        &self,
        alloc: Global,
        def: &TypeDef,
        request: &TypeRequest,
    ) -> Result<TypeDef, Fail>
        ensures { Meets (λ t. t) result (judge_change_of self.now def.now request.now) }
    {
        if !def.mutability.update {
            return Err(Fail::Refused(Cause::TypeFixed));
        }
        let made = made_new(
            alloc,
            def.properties.as_slice(),
            request.properties.as_slice(),
        )?;
        if self.breaks_change_rule(alloc, def, request, made.as_slice())? {
            return Err(Fail::Refused(Cause::TypeRule));
        }
        let all = joined(alloc, def.properties.as_slice(), made.as_slice())?;
        let properties = sorted_props(alloc, all.as_slice())?;
        let changed = changed_type(alloc, def, request, properties)?;
        Ok(changed)
    }

    fn made_changed(&self, alloc: Global, request: &TypeRequest) -> Result<TypeDef, Fail>
        ensures { Meets (λ t. t) result (judge_changed_type self.now request.now) }
    {
        match self.find(&request.id) {
            Some(def) => self.changed_at(alloc, def, request),
            None => Err(Fail::Refused(Cause::TypeNotFound)),
        }
    }

    /// The list with the type that the request changes: its display name, its description, and properties that are new and not
    /// required. What the request doesn't give stays.
    ///
    /// The causes in their order: TypeNotFound; TypeFixed for a type that allows no update; TypeRule for a change of anything
    /// else, or a new property that breaks a rule.
    #[tactic(auto, using(cm_types::proofs::Exits::fails_bind))]
    pub fn with_change(&self, alloc: Global, new: &TypeRequest) -> Result<Types, Fail>
        ensures { Meets (λ types. types) result (judge_with_change self.now new.now) }
    {
        let def = self.made_changed(alloc, new)?;
        let types = self.with_def(alloc, def)?;
        Ok(types)
    }

    fn judge_removed(&self, def: &TypeDef) -> Result<(), Fail>
        ensures { Meets (λ x. x) result (judge_removal_of self.now def.now) }
    {
        if !def.mutability.delete {
            return Err(Fail::Refused(Cause::TypeFixed));
        }
        if self.has_subtype(&def.id) {
            return Err(Fail::Refused(Cause::TypeInUse));
        }
        Ok(())
    }

    fn judge_removable(&self, id: &Text) -> Result<(), Fail>
        ensures { Meets (λ x. x) result (judge_removed_type self.now id.now) }
    {
        match self.find(id) {
            Some(def) => self.judge_removed(def),
            None => Err(Fail::Refused(Cause::TypeNotFound)),
        }
    }

    /// The list without the type.
    ///
    /// The causes in their order: TypeNotFound; TypeFixed for a type that allows no deletion; TypeInUse for one with a subtype.
    #[tactic(auto, using(cm_types::proofs::Exits::fails_then))]
    pub fn without(&self, alloc: Global, id: &Text) -> Result<Types, Fail>
        ensures { Meets (λ types. types) result (judge_without_type self.now id.now) }
    {
        self.judge_removable(id)?;
        let types = self.without_def(alloc, id)?;
        Ok(types)
    }
}
