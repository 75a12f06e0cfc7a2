ghost use Rattle.std.specs.Prelude.{
  ◌≡◌,
  List,
  [],
  ◌∷◌,
  reverse,
  find,
  map,
  not,
  is_some,
  None,
  Some,
  IfOk,
  IfErr,
  OnOk,
  OnErr,
};
ghost use Rattle.std.specs.List.{filter_map};
ghost use Rattle.std.specs.Option.{option_copied};
ghost use Rattle.txn_types.specs.Order.{same_tag};
ghost use Rattle.version_store.specs.Versions.{first, without, restamped, holder_of, holder, is_of, is_committed_by, seen, other_writer_of, newest_of, against, writer_of, commit_of};
ghost use Rattle.version_store.specs.Chains.{begins};
ghost use Rattle.version_store.specs.TakenBack.{put_back};
ghost use Rattle.version_store.specs.declared.version.Version.{Version};

use crate::version::{Stamp, Version};
use bson_core::Doc;
use std::alloc::{AllocError, Global};
use std::marker::Model;
use txn_types::{By, Tag, Ts};

/// Whether the tags are the same.
pub fn is_same(a: &Tag, b: &Tag) -> bool
    ensures { result ≡ same_tag a.now b.now }
{
    let later = a.boot.cmp(&b.boot).then(a.serial.cmp(&b.serial));
    a.router.cmp(&b.router).then(later).is_eq()
}

/// The transaction that a version is of, where it isn't committed.
fn writer(stamp: &Stamp) -> Option<Tag>
    ensures { result ≡ writer_of stamp.now }
{
    match stamp {
        Stamp::Unfinished(tag) | Stamp::Prepared(tag, _) => Some(*tag),
        Stamp::At(_) => None,
    }
}

/// When a version was committed.
fn commit(stamp: &Stamp) -> Option<Ts>
    ensures { result ≡ commit_of stamp.now }
{
    match stamp {
        Stamp::At(at) => Some(*at),
        Stamp::Unfinished(_) | Stamp::Prepared(_, _) => None,
    }
}

/// Whether the version is the transaction's.
pub fn is_of(tag: &Tag, version: &Version) -> bool
    ensures { result ≡ is_of tag.now version.now }
{
    match writer(&version.stamp) {
        Some(writer) => is_same(&writer, tag),
        None => false,
    }
}

/// Whether the version was committed at or below the moment.
fn is_committed_by(at: Ts, version: &Version) -> bool
    ensures { result ≡ is_committed_by at version.now }
{
    match commit(&version.stamp) {
        Some(commit) => commit.0 <= at.0,
        None => false,
    }
}

/// Another transaction that prepared the version, and its prepare timestamp, where that is at or
/// below the moment.
fn holder_of(at: Ts, tag: &Tag, stamp: &Stamp) -> Option<(Tag, Ts)>
    ensures { result ≡ holder_of at tag.now stamp.now }
{
    match stamp {
        Stamp::Prepared(writer, since) => {
            if !is_same(writer, tag) && since.0 <= at.0 {
                return Some((*writer, *since));
            }
            None
        }
        Stamp::Unfinished(_) | Stamp::At(_) => None,
    }
}

/// Who holds a key with these versions. Lists of versions stand oldest first here, and contracts
/// see them newest first.
pub fn holder(at: Ts, tag: &Tag, versions: &[Version]) -> Option<(Tag, Ts)>
    ensures { result ≡ holder at tag.now (reverse versions.now) }
{
    let mut left = versions;
    while let Some((version, older)) = left.split_last() {
        if let Some(held) = holder_of(at, tag, &version.stamp) {
            return Some(held);
        }
        left = older;
    }
    None
}

/// The transaction's own version.
pub fn own<'a>(tag: &Tag, versions: &'a [Version]) -> Option<&'a Version>
    ensures { option_copied result ≡ find (is_of tag.now) (reverse versions.now) }
{
    versions.iter().rev().find(|version| is_of(tag, version))
}

/// The newest version that was committed at or below the moment.
fn newest_by(at: Ts, versions: &[Version]) -> Option<&Version>
    ensures { option_copied result ≡ find (is_committed_by at) (reverse versions.now) }
{
    versions
        .iter()
        .rev()
        .find(|version| is_committed_by(at, version))
}

/// The document that the transaction sees there.
pub fn seen<'a>(at: Ts, tag: &Tag, versions: &'a [Version]) -> Option<&'a Doc>
    ensures { option_copied result ≡ seen at tag.now (reverse versions.now) }
{
    let version = match own(tag, versions) {
        Some(version) => version,
        None => newest_by(at, versions)?,
    };
    version.doc.as_ref()
}

/// When the newest commit was.
pub fn newest_of(versions: &[Version]) -> Option<Ts>
    ensures { result ≡ newest_of (reverse versions.now) }
{
    let mut left = versions;
    while let Some((version, older)) = left.split_last() {
        if let Some(at) = commit(&version.stamp) {
            return Some(at);
        }
        left = older;
    }
    None
}

/// The transaction of a version that isn't committed, where it is another one.
fn other_writer(tag: &Tag, version: &Version) -> Option<Tag>
    ensures { result ≡ other_writer_of tag.now version.now }
{
    let writer = writer(&version.stamp)?;
    if is_same(&writer, tag) {
        return None;
    }
    Some(writer)
}

/// Another transaction with a version there that isn't committed.
fn other(tag: &Tag, versions: &[Version]) -> Option<Tag>
    ensures { result ≡ first (filter_map (other_writer_of tag.now) (reverse versions.now)) }
{
    let mut left = versions;
    while let Some((version, older)) = left.split_last() {
        if let Some(writer) = other_writer(tag, version) {
            return Some(writer);
        }
        left = older;
    }
    None
}

/// What stands against a write of the transaction.
pub fn against(at: Ts, tag: &Tag, versions: &[Version]) -> Option<By>
    ensures { result ≡ against at tag.now (reverse versions.now) }
{
    if let Some(writer) = other(tag, versions) {
        return Some(By::Tag(writer));
    }
    let commit = newest_of(versions)?;
    if at.0 < commit.0 {
        return Some(By::At(commit));
    }
    None
}

/// Whether the newest version is the transaction's.
fn begins(tag: &Tag, versions: &[Version]) -> bool
    ensures { result ≡ begins tag.now (reverse versions.now) }
{
    match versions.last() {
        Some(version) => is_of(tag, version),
        None => false,
    }
}

/// Puts a version in place of the newest one.
fn replace_newest(versions: &mut Vec<Version>, version: Version)
    ensures { (newest : Version) (older : List Version)
        → reverse versions.old.items ≡ newest ∷ older
        → reverse versions.new.items ≡ version ∷ older }
{
    if let Some(newest) = versions.last_mut() {
        *newest = version;
    }
}

/// Gives the newest version a stamp.
fn restamp_newest(versions: &mut Vec<Version>, stamp: &Stamp)
    ensures { (newest : Version) (older : List Version)
        → reverse versions.old.items ≡ newest ∷ older → reverse versions.new.items
        ≡ record { stamp = stamp.now; doc = newest.doc } ∷ older }
{
    if let Some(newest) = versions.last_mut() {
        newest.stamp = *stamp;
    }
}

/// Takes out the newest version.
fn drop_newest(versions: &mut Vec<Version>)
    ensures { (newest : Version) (older : List Version)
        → reverse versions.old.items ≡ newest ∷ older → reverse versions.new.items ≡ older }
{
    let newest = versions.pop();
    drop(newest);
}

/// The versions of a key, kept oldest first, so that a new one comes after the others and moves
/// none; contracts see them newest first. All but the newest are committed.
#[derive(Drop)]
pub struct Chain {
    versions: Vec<Version>,
}

impl Model for Chain {
    ghost use Rattle.std.specs.Prelude.{List, reverse};
    ghost use Rattle.std.specs.Coded.{codes};
    ghost use Rattle.bson_core.specs.contracts.value.Value as value;
    ghost use Rattle.version_store.specs.declared.version.Version.{Version};
    ghost use Rattle.version_store.specs.Chains.{IsChain};

    ghost Value = { List Version };

    ghost coded = { Prim.hlevel (codes, value.the_row.coded) };

    ghost view = { λ c. reverse c.versions.items };

    ghost invariant = { λ c. IsChain (reverse c.versions.items) };
}

impl Chain {
    /// One version.
    pub fn new(alloc: Global, version: Version) -> Result<Chain, Version>
        ensures ok { IfOk result (λ c. c ≡ version ∷ []) }
        ensures back { IfErr result (λ v. v ≡ version) }
    {
        let mut versions = Vec::new(alloc);
        match versions.push(version) {
            Ok(()) => Ok(Chain { versions }),
            Err(failed) => Err(failed.value),
        }
    }

    pub fn copy(&self, alloc: Global) -> Result<Chain, AllocError>
        ensures { IfOk result (λ c. c ≡ self.now) }
    {
        let mut versions = Vec::new(alloc);
        for version in self.versions.as_slice() {
            versions.push(version.copy(alloc)?)?;
        }
        Ok(Chain { versions })
    }

    /// The versions, oldest first.
    pub fn as_slice(&self) -> &[Version]
        ensures { reverse result.now ≡ self.now }
    {
        self.versions.as_slice()
    }

    pub fn is_empty(&self) -> bool
        ensures { result ≡ not (is_some (first self.now)) }
    {
        self.versions.is_empty()
    }

    /// Takes the one version out of a list of one.
    pub fn into_only(self) -> Option<Version>
        ensures { (v : Version) → self ≡ v ∷ [] → result ≡ Some v }
    {
        let mut versions = self.versions;
        versions.pop()
    }

    /// Puts a version of the transaction before the others, in place of its own older one.
    pub fn put(&mut self, tag: &Tag, version: Version) -> Result<(), Version>
        requires { first (filter_map (other_writer_of tag.now) self.old) ≡ None }
        ensures ok { OnOk result (self.new ≡ version ∷ without tag.now self.old) }
        ensures err { OnErr result (self.new ≡ self.old) }
        ensures back { IfErr result (λ v. v ≡ version) }
    {
        if begins(tag, self.versions.as_slice()) {
            replace_newest(&mut self.versions, version);
            return Ok(());
        }
        match self.versions.push(version) {
            Ok(()) => Ok(()),
            Err(failed) => Err(failed.value),
        }
    }

    /// Puts a version in place of the transaction's own one, where it has one.
    pub fn put_back(&mut self, tag: &Tag, version: Version)
        ensures { self.new ≡ put_back tag.now version self.old }
    {
        if begins(tag, self.versions.as_slice()) {
            replace_newest(&mut self.versions, version);
        }
    }

    /// Gives the transaction's versions this stamp.
    pub fn restamp(&mut self, tag: &Tag, stamp: &Stamp)
        ensures { self.new ≡ map (restamped tag.now stamp.now) self.old }
    {
        if begins(tag, self.versions.as_slice()) {
            restamp_newest(&mut self.versions, stamp);
        }
    }

    /// Takes the transaction's versions out.
    pub fn take_out(&mut self, tag: &Tag)
        ensures { self.new ≡ without tag.now self.old }
    {
        if begins(tag, self.versions.as_slice()) {
            drop_newest(&mut self.versions);
        }
    }
}
