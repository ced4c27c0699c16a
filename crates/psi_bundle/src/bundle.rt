//! Bundles: 819 bins of members.
//!
//! Bundles share their bins: a change of one bin copies that bin and one page of handles.
ghost use Rattle.std.specs.Prelude.{◌≡◌, ◌<◌, ◌≤◌, IsTrue, List, ℕ, length, take, drop, ◌++◌, [], ◌∷◌, map, IfOk, slice_index, slice_set, ◌+◌};
ghost use Rattle.std.specs.List.{list_any};
ghost use Rattle.psi_residue.specs.RootPolynomials.{root_coefficient};
ghost use Rattle.psi_bundle.specs.Bins.{accepts, holds, shares_slot, bin_at, empty_bins, relabelled, roots_of, without};
ghost use Rattle.item_slots.specs.Tags.{bins_of_row, parts_of_tag, slot_value};

use crate::bin::Bin;
use crate::label::Label;
use crate::member::Member;
use item_slots::{Tag, slots};
use page_list::PageList;
use std::alloc::{AllocError, Global};
use std::marker::Model;
use std::sync::Arc;

/// 819 bins of members, each with the root polynomials of its five parts. Contracts see the members.
#[derive(Drop)]
pub struct Bundle {
    bins: PageList<Bin>,
}

impl Model for Bundle {
    ghost use Rattle.std.specs.Prelude.{◌≡◌, List, length};
    ghost use Rattle.psi_bundle.specs.declared.member.Member.{Member};

    ghost Value = { List (List Member) };

    ghost view = { λ b. b.bins };

    ghost invariant = { λ b. length b.bins ≡ 819 };
}

impl Bundle {
    /// The bundle without members.
    ///
    /// # Errors
    ///
    /// If memory runs out.
    #[tactic(auto, unfolding(crate::specs::Bins::empty_bins))]
    pub fn empty(alloc: Global) -> Result<Bundle, AllocError>
        ensures { IfOk result (λ bundle. bundle ≡ empty_bins) }
    {
        let none = Arc::new(alloc, Bin::empty(alloc)?)?;
        let bins = PageList::filled(alloc, 819, none)?;
        Ok(Bundle { bins })
    }

    /// The bundle with one member, in this bin, which is below 819.
    ///
    /// # Errors
    ///
    /// If memory runs out.
    pub fn of_one(alloc: Global, bin: u16, member: Member) -> Result<Bundle, AllocError>
        requires { bin < bins_of_row }
        ensures { IfOk result (λ bundle. bundle ≡ slice_set empty_bins bin (bin_at empty_bins bin ++ member ∷ [])) }
    {
        let empty = Bundle::empty(alloc)?;
        empty.add(alloc, bin, member, 1)
    }

    /// The number of its bins, which is 819.
    pub fn bins(&self) -> u16
        ensures number { result ≡ length self.now }
        ensures all { result ≡ bins_of_row }
    {
        self.bins.len() as u16
    }

    /// The members of a bin, in their order. `bin` is below 819.
    pub fn members(&self, bin: u16) -> &[Member]
        requires { bin < bins_of_row }
        ensures { result.now ≡ bin_at self.now bin }
    {
        self.bin(bin).members()
    }

    /// Whether the bin accepts the tag: it has fewer members than the capacity, and none of them shares a
    /// slot value with the tag in the same part. `bin` is below 819.
    pub fn accepts(&self, bin: u16, tag: &Tag, capacity: u16) -> bool
        requires { bin < bins_of_row }
        ensures { result ≡ accepts capacity (bin_at self.now bin) tag.now }
    {
        accepts_in(self.members(bin), tag, capacity)
    }

    /// Whether the tag stands in the bin. `bin` is below 819.
    pub fn holds(&self, bin: u16, tag: &Tag) -> bool
        requires { bin < bins_of_row }
        ensures { result ≡ holds (bin_at self.now bin) tag.now }
    {
        holds_in(self.members(bin), tag)
    }

    /// The bundle with the member at the end of the bin, which accepts its tag. `bin` is below 819.
    ///
    /// # Errors
    ///
    /// If memory runs out.
    pub fn add(
        &self,
        alloc: Global,
        bin: u16,
        member: Member,
        capacity: u16,
    ) -> Result<Bundle, AllocError>
        requires in_range { bin < bins_of_row }
        requires accepted { IsTrue (accepts capacity (bin_at self.now bin) member.tag) }
        ensures { IfOk result (λ bundle. bundle ≡ slice_set self.now bin (bin_at self.now bin ++ member ∷ [])) }
    {
        self.with_bin(alloc, bin, self.bin(bin).add(alloc, member)?)
    }

    /// The bundle with another label for the tag, which the bin holds. `bin` is below 819.
    ///
    /// # Errors
    ///
    /// If memory runs out.
    pub fn relabel(
        &self,
        alloc: Global,
        bin: u16,
        tag: &Tag,
        label: Label,
    ) -> Result<Bundle, AllocError>
        requires in_range { bin < bins_of_row }
        requires held { IsTrue (holds (bin_at self.now bin) tag.now) }
        ensures { IfOk result (λ bundle. bundle ≡ slice_set self.now bin (relabelled (bin_at self.now bin) tag.now label)) }
    {
        self.with_bin(alloc, bin, self.bin(bin).relabel(alloc, tag, label)?)
    }

    /// The bundle without the tag's member in the bin, which holds it. The other members keep their order. `bin` is
    /// below 819.
    ///
    /// # Errors
    ///
    /// If memory runs out.
    pub fn remove(&self, alloc: Global, bin: u16, tag: &Tag) -> Result<Bundle, AllocError>
        requires in_range { bin < bins_of_row }
        requires held { IsTrue (holds (bin_at self.now bin) tag.now) }
        ensures { IfOk result (λ bundle. bundle ≡ slice_set self.now bin (without (bin_at self.now bin) tag.now)) }
    {
        self.with_bin(alloc, bin, self.bin(bin).remove(alloc, tag)?)
    }

    /// Writes the slot values of one part of the bin's members to the front of `out`, in their order, and
    /// gives their number. `bin` is below 819, `part` below 5, and `out` has room for as many as the bin has members.
    pub fn roots(&self, bin: u16, part: u8, out: &mut [u16]) -> usize
        requires in_range { bin < bins_of_row }
        requires a_part { part < parts_of_tag }
        requires room { length (bin_at self.now bin) ≤ length out.old }
        ensures number { result ≡ length (bin_at self.now bin) }
        ensures values { take result out.new ≡ roots_of (bin_at self.now bin) part }
        ensures rest { drop result out.new ≡ drop result out.old }
    {
        write_roots(self.members(bin), part, out)
    }

    /// The root polynomial of one part of a bin, modulo 65537: the product of `(x - a)` over the slot values `a` that the
    /// bin's members have in the part, its coefficients with the constant first. There is one more of them than members.
    /// `bin` is below 819 and `part` below 5.
    ///
    /// Each bin keeps its polynomials: after any list of `add`, `remove` and `relabel` they are those of the members that
    /// then stand, which is a fact of the type.
    pub fn poly(&self, bin: u16, part: u8) -> &[u32]
        requires in_range { bin < bins_of_row }
        requires a_part { part < parts_of_tag }
        ensures number { length result.now ≡ length (bin_at self.now bin) + 1 }
        ensures coefficients { (k : ℕ) → slice_index result.now k ≡ root_coefficient (roots_of (bin_at self.now bin) part) k }
    {
        self.bin(bin).polynomial(part)
    }

    // One bin.
    fn bin(&self, bin: u16) -> &Bin
        requires { bin < bins_of_row }
        ensures { result.now ≡ bin_at self.now bin }
    {
        self.bins.get(bin as usize)
    }

    // The bundle with another content of one bin.
    fn with_bin(&self, alloc: Global, bin: u16, content: Bin) -> Result<Bundle, AllocError>
        requires { bin < bins_of_row }
        ensures { IfOk result (λ bundle. bundle ≡ slice_set self.now bin content) }
    {
        let changed = Arc::new(alloc, content)?;
        let bins = self.bins.replace(alloc, bin as usize, changed)?;
        Ok(Bundle { bins })
    }
}

// Whether two tags have one slot value in common, in the same part.
fn shares_slot(a: &Tag, b: &Tag) -> bool
    ensures { result ≡ shares_slot a.now b.now }
{
    let [a0, a1, a2, a3, a4] = slots(a);
    let [b0, b1, b2, b3, b4] = slots(b);
    a0 == b0 || a1 == b1 || a2 == b2 || a3 == b3 || a4 == b4
}

// Whether some member shares a slot value with the tag.
fn meets(members: &[Member], tag: &Tag) -> bool
    ensures { result ≡ list_any (λ m. shares_slot m.tag tag.now) members.now }
{
    members.iter().any(|m| shares_slot(&m.tag, tag))
}

#[tactic(auto, unfolding(crate::specs::Bins::accepts))]
fn accepts_in(members: &[Member], tag: &Tag, capacity: u16) -> bool
    ensures { result ≡ accepts capacity members.now tag.now }
{
    members.len() < usize::from(capacity) && !meets(members, tag)
}

#[tactic(auto, unfolding(crate::specs::Bins::holds))]
fn holds_in(members: &[Member], tag: &Tag) -> bool
    ensures { result ≡ holds members.now tag.now }
{
    members.iter().any(|m| m.tag == *tag)
}

// The slot value of one part of a tag.
fn slot(tag: &Tag, part: u8) -> u16
    requires { part < parts_of_tag }
    ensures { result ≡ slot_value tag.now part }
{
    slots(tag)[part as usize]
}

// Writes the slot values of one part to the front of `out`.
fn write_roots(members: &[Member], part: u8, out: &mut [u16]) -> usize
    requires a_part { part < parts_of_tag }
    requires room { length members.now ≤ length out.old }
    ensures number { result ≡ length members.now }
    ensures values { take result out.new ≡ roots_of members.now part }
    ensures rest { drop result out.new ≡ drop result out.old }
{
    for (i, member) in members.iter().enumerate() {
        out[i] = slot(&member.tag, part);
    }
    members.len()
}
