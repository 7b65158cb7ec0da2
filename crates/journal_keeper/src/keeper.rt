//! A keeper over a journal in a file.
ghost use Rattle.std.specs.Prelude.{◌≡◌, ◌≤◌, [], None, IsTrue, ℕ, List, length, take, OnOk, OnErr, IfErr, IfSome, MatchResult};
ghost use Rattle.outside.specs.Outside.{Rose, HasCause};
ghost use Rattle.disk.specs.Crashes.{LeavesOnly, LeavesSince};
ghost use Rattle.journal_keeper.specs.declared.lost.Lost.{Lost};
ghost use Rattle.journal_keeper.specs.declared.lost.Lost.TheVariants.{Disk};
ghost use Rattle.journal_keeper.specs.Standing.{StandsForFront};
ghost use Rattle.journal_keeper.specs.Stores.{Stands, disk_of, faults, IsWhy, WhereDisk, first_lost};
ghost use Rattle.journal_keeper.specs.Went.{Went, went_at_once, went_joins};

use crate::encoding::payloads_from;
use crate::entry_code::EntryCode;
use crate::lost::Lost;
use crate::store::{Batch, Store, put};
use core::mem::replace_with;
use desk_model::{Keeper, Machine, Version};
use disk::Disk;
use journal_file::{Journal, one_reading};
use outside::Failed;
use std::alloc::Global;
use std::marker::{Model, PhantomData};
use std::snapshot::Snapshot;

/// A keeper over a journal in a file, where entries stand in the encoding `F` behind the payloads of before. The number of a session
/// is greater there, by the keeper's offset, than it is in the run.
#[derive(Drop)]
pub struct JournalKeeper<K: Disk, F> {
    store: Store<K>,
    begun: Snapshot<K>,
    offset: u32,
    unkept: u64,
    lost: Option<Lost>,
    alloc: Global,
    codes: PhantomData<F>,
}

impl<K: Disk, F> Model for JournalKeeper<K, F> {
    ghost use Rattle.std.specs.Prelude.{◌≡◌, ◌≤◌, IfSome};
    ghost use Rattle.outside.specs.Outside.{Rose};
    ghost use Rattle.journal_keeper.specs.declared.lost.Lost.TheVariants.{Disk};
    ghost use Rattle.journal_keeper.specs.Stores.{KeeperTold, disk_of};

    ghost Value = { KeeperTold K };

    ghost view = { λ k. record {
      store = k.store;
      begun = k.begun.value;
      offset = k.offset;
      unkept = k.unkept;
      lost = k.lost;
    } };

    ghost invariant = { λ k. ((K.told k.begun.value).faults ≤ (K.told (disk_of k.store)).faults)
        × IfSome k.lost (λ lost. lost ≡ Disk
        → Rose (K.told k.begun.value).faults (K.told (disk_of k.store)).faults)
        × (K.stands_for (disk_of k.store) ≡ K.stands_for k.begun.value) };
}

impl<K: Disk, F> JournalKeeper<K, F> {
    /// A keeper that begins with a journal. It has kept nothing yet.
    pub fn new<C>(alloc: Global, journal: Journal<K>, offset: u32) -> JournalKeeper<K, F>
    where
        F: EntryCode<C>,
        ensures stands { Stands K.tells K.told F.codec result 0 [] }
        ensures begun { result.begun ≡ journal.disk }
        ensures disk { disk_of result.store ≡ journal.disk }
        ensures offset { result.offset ≡ offset }
        ensures unkept { (result.unkept ≡ 0) × (result.lost ≡ None) }
    {
        journal.lawful();
        let begun = Snapshot::of(journal.disk());
        JournalKeeper {
            store: Store::Open(journal),
            begun,
            offset,
            unkept: 0,
            lost: None,
            alloc,
            codes: PhantomData,
        }
    }

    /// Why it first kept nothing, if it ever did. The disk is the reason only where its count rose since the keeper began.
    pub fn lost(&self) -> Option<Lost>
        ensures is { result ≡ self.now.lost }
        ensures disk { IfSome result (λ lost. lost ≡ Disk
            → Rose (K.told self.now.begun).faults (K.told (disk_of self.now.store)).faults) }
    {
        self.lost
    }

    /// What it leaves.
    pub fn into_store(self) -> Store<K>
        ensures store { result ≡ self.store }
        ensures stands_for { K.stands_for (disk_of result) ≡ K.stands_for self.begun }
    {
        self.store
    }

    // Puts the payloads of the version's entries from this place on.
    fn put_from<M: Machine>(&mut self, version: &Version<M>, from: u64) -> Result<(), Lost>
    where
        F: EntryCode<M::Call>,
        requires within { from ≤ length version.now.journal }
        ensures any_moment { IsTrue K.tells → (before : List (List ℕ))
            → LeavesOnly (StandsForFront F.codec self.old.offset before from (take from version.now.journal))
            (K.told (disk_of self.old.store)).file
            → LeavesSince (StandsForFront F.codec self.old.offset before from version.now.journal)
            (K.told (disk_of self.old.store)) (K.told (disk_of self.new.store)) }
        ensures stands { IsTrue K.tells → (before : List (List ℕ))
            → LeavesOnly (StandsForFront F.codec self.old.offset before from (take from version.now.journal))
            (K.told (disk_of self.old.store)).file
            → OnOk result (LeavesOnly
            (StandsForFront F.codec self.old.offset before (length version.now.journal) version.now.journal)
            (K.told (disk_of self.new.store)).file) }
        ensures same { (self.new.begun ≡ self.old.begun) × (self.new.offset ≡ self.old.offset)
            × (self.new.unkept ≡ self.old.unkept) × (self.new.lost ≡ self.old.lost) }
        ensures later { (K.told (disk_of self.old.store)).faults ≤ (K.told (disk_of self.new.store)).faults }
        ensures why { IfErr result (IsWhy K.told self.old.store self.new.store) }
        ensures since { IfErr result (λ lost. lost ≡ Disk
            → Rose (K.told self.new.begun).faults (K.told (disk_of self.new.store)).faults) }
    {
        let payloads = payloads_from::<M, F>(self.alloc, self.offset, version, from)?;
        let batch = Batch {
            alloc: self.alloc,
            payloads,
        };
        replace_with(&mut self.store, batch, put::<K>)
    }

    // Remembers why it kept nothing, and counts it where the disk didn't.
    fn remember(&mut self, lost: Lost)
        requires { lost ≡ Disk → Rose (K.told self.old.begun).faults (K.told (disk_of self.old.store)).faults }
        ensures same { (self.new.store ≡ self.old.store) × (self.new.begun ≡ self.old.begun)
            × (self.new.offset ≡ self.old.offset) }
        ensures counted { WhereDisk lost (self.new.unkept ≡ self.old.unkept) (Rose self.old.unkept self.new.unkept) }
        ensures later { self.old.unkept ≤ self.new.unkept }
        ensures lost { self.new.lost ≡ first_lost self.old.lost lost }
    {
        match lost {
            Lost::Disk => {}
            _ => self.unkept = self.unkept.saturating_add(1),
        }
        self.lost = match self.lost {
            None => Some(lost),
            Some(first) => Some(first),
        };
    }
}

impl<M: Machine, K: Disk + Drop, F: EntryCode<M::Call>> Keeper<M> for JournalKeeper<K, F> {
    ghost stands = { Stands K.tells K.told F.codec };

    ghost went = { Went K.tells K.told F.codec };

    ghost faults = { faults K.told };

    fn keep(&mut self, version: &Version<M>, from: u64) -> Result<(), Failed>
        requires within { from ≤ length version.now.journal }
        requires before { Stands K.tells K.told F.codec self.old from (take from version.now.journal) }
        ensures kept { OnOk result (Stands K.tells K.told F.codec self.new (length version.now.journal)
            version.now.journal) }
        ensures front { OnErr result (Stands K.tells K.told F.codec self.new from version.now.journal) }
        ensures went { Went K.tells K.told F.codec self.old self.new from version.now.journal }
        ensures cause { HasCause (faults K.told self.old) (faults K.told self.new) result }
        ensures same { (self.new.begun ≡ self.old.begun) × (self.new.offset ≡ self.old.offset) }
        ensures any_moment { IsTrue K.tells → (before : List (List ℕ))
            → LeavesOnly (StandsForFront F.codec self.old.offset before from (take from version.now.journal))
            (K.told (disk_of self.old.store)).file
            → LeavesSince (StandsForFront F.codec self.old.offset before from version.now.journal)
            (K.told (disk_of self.old.store)) (K.told (disk_of self.new.store)) }
        ensures why { MatchResult result (λ _. self.new.lost ≡ self.old.lost) (λ _. (lost : Lost)
            × IsWhy K.told self.old.store self.new.store lost
            × (self.new.lost ≡ first_lost self.old.lost lost)) }
    {
        one_reading();
        match self.put_from::<M>(version, from) {
            Ok(()) => Ok(()),
            Err(lost) => {
                self.remember(lost);
                Err(Failed)
            }
        }
    }

    ghost at_once = { went_at_once K.tells K.told F.codec };

    ghost joins = { went_joins K.tells K.told F.codec };
}
