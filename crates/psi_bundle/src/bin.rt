//! One bin: its members, and the polynomials that have their slot values as roots.
ghost use Rattle.std.specs.Prelude.{◌≡◌, ◌<◌, ◌++◌, ◌∷◌, [], IsTrue, IsFalse, length, slice_index, IfOk};
ghost use Rattle.std.specs.List.{list_any};
ghost use Rattle.psi_residue.specs.Numbers.{plain_modulus};
ghost use Rattle.psi_residue.specs.Polynomials.{value_at};
ghost use Rattle.psi_bundle.specs.Bins.{holds, shares_slot, relabelled, roots_of, without};
ghost use Rattle.psi_bundle.specs.KeptPolynomials.{EachPart, GainsRoot, IsRootPolynomial, LosesRoot, polynomial_at};

use crate::label::Label;
use crate::member::Member;
use crate::root_polynomial::RootPolynomial;
use item_slots::{Tag, slots};
use std::alloc::{AllocError, Global};
use std::marker::Model;

// The members of a bin, no two of which share a slot value in the same part, and by part the polynomial of their slot
// values. Contracts see the members.
#[derive(Drop)]
pub struct Bin {
    members: Vec<Member>,
    polynomials: [RootPolynomial; 5],
}

impl Model for Bin {
    ghost use Rattle.std.specs.Prelude.{List};
    ghost use Rattle.psi_bundle.specs.declared.member.Member.{Member};
    ghost use Rattle.psi_bundle.specs.KeptPolynomials.{KeepsPolynomials};

    ghost Value = { List Member };

    ghost view = { λ b. b.members.items };

    ghost invariant = { λ b. KeepsPolynomials b.members.items b.polynomials };
}

impl Bin {
    // The bin without members.
    pub(crate) fn empty(alloc: Global) -> Result<Bin, AllocError>
        ensures { IfOk result (λ bin. bin ≡ []) }
    {
        let polynomials = ones(alloc)?;
        Ok(Bin {
            members: Vec::new(alloc),
            polynomials,
        })
    }

    // Its members.
    pub(crate) fn members(&self) -> &[Member]
        ensures { result.now ≡ self.now }
    {
        &self.members
    }

    // The polynomial of one part.
    pub(crate) fn polynomial(&self, part: u8) -> &[u32]
        requires { part < 5 }
        ensures { IsRootPolynomial (roots_of self.now part) result.now }
    {
        self.polynomials[part as usize].coefficients()
    }

    // The bin with one more member at its end, which shares no slot value with the others.
    pub(crate) fn add(&self, alloc: Global, member: Member) -> Result<Bin, AllocError>
        requires { IsFalse (list_any (λ m. shares_slot m.tag member.tag) self.now) }
        ensures { IfOk result (λ bin. bin ≡ self.now ++ member ∷ []) }
    {
        let members = appended(alloc, &self.members, member)?;
        let polynomials = multiplied(alloc, &self.polynomials, slots(&member.tag))?;
        Ok(Bin {
            members,
            polynomials,
        })
    }

    // The bin with another label for the tag.
    pub(crate) fn relabel(&self, alloc: Global, tag: &Tag, label: Label) -> Result<Bin, AllocError>
        ensures { IfOk result (λ bin. bin ≡ relabelled self.now tag.now label) }
    {
        let members = with_label(alloc, &self.members, tag, label)?;
        let polynomials = copied(alloc, &self.polynomials)?;
        Ok(Bin {
            members,
            polynomials,
        })
    }

    // The bin without the tag's member. It holds the tag.
    pub(crate) fn remove(&self, alloc: Global, tag: &Tag) -> Result<Bin, AllocError>
        requires { IsTrue (holds self.now tag.now) }
        ensures { IfOk result (λ bin. bin ≡ without self.now tag.now) }
    {
        let members = others(alloc, &self.members, tag)?;
        let polynomials = divided(alloc, &self.polynomials, slots(tag))?;
        Ok(Bin {
            members,
            polynomials,
        })
    }
}

// The members of a bin, and one more.
fn appended(alloc: Global, members: &[Member], member: Member) -> Result<Vec<Member>, AllocError>
    ensures { IfOk result (λ bin. bin.items ≡ members.now ++ member ∷ []) }
{
    let mut bin = Vec::with_capacity(alloc, members.len() + 1)?;
    bin.extend_from_slice(members)?;
    bin.push(member)?;
    Ok(bin)
}

// The members of a bin, with another label for the tag.
#[tactic(auto, unfolding(crate::specs::Bins::relabelled))]
fn with_label(
    alloc: Global,
    members: &[Member],
    tag: &Tag,
    label: Label,
) -> Result<Vec<Member>, AllocError>
    ensures { IfOk result (λ bin. bin.items ≡ relabelled members.now tag.now label) }
{
    members
        .iter()
        .map(|m| {
            if m.tag == *tag {
                Member { tag: m.tag, label }
            } else {
                *m
            }
        })
        .collect(alloc)
}

// The members of a bin whose tag is another.
#[tactic(auto, unfolding(crate::specs::Bins::without))]
fn others(alloc: Global, members: &[Member], tag: &Tag) -> Result<Vec<Member>, AllocError>
    ensures { IfOk result (λ bin. bin.items ≡ without members.now tag.now) }
{
    members
        .iter()
        .filter(|m| m.tag != *tag)
        .map(|m| *m)
        .collect(alloc)
}

// By part the polynomial without roots.
fn ones(alloc: Global) -> Result<[RootPolynomial; 5], AllocError>
    ensures { IfOk result (λ new. EachPart (λ j. polynomial_at new j ≡ 1 ∷ [])) }
{
    Ok([
        RootPolynomial::one(alloc)?,
        RootPolynomial::one(alloc)?,
        RootPolynomial::one(alloc)?,
        RootPolynomial::one(alloc)?,
        RootPolynomial::one(alloc)?,
    ])
}

// The same polynomials.
fn copied(alloc: Global, old: &[RootPolynomial; 5]) -> Result<[RootPolynomial; 5], AllocError>
    ensures { IfOk result (λ new. EachPart (λ j. polynomial_at new j ≡ polynomial_at old.now j)) }
{
    Ok([
        old[0].copied(alloc)?,
        old[1].copied(alloc)?,
        old[2].copied(alloc)?,
        old[3].copied(alloc)?,
        old[4].copied(alloc)?,
    ])
}

// The polynomials with one root more each, by part.
fn multiplied(
    alloc: Global,
    old: &[RootPolynomial; 5],
    roots: [u16; 5],
) -> Result<[RootPolynomial; 5], AllocError>
    ensures { IfOk result (λ new. EachPart (λ j. GainsRoot (slice_index roots j) (polynomial_at old.now j) (polynomial_at new j))) }
{
    Ok([
        old[0].times(alloc, roots[0])?,
        old[1].times(alloc, roots[1])?,
        old[2].times(alloc, roots[2])?,
        old[3].times(alloc, roots[3])?,
        old[4].times(alloc, roots[4])?,
    ])
}

// The polynomials with one root less each, by part.
fn divided(
    alloc: Global,
    old: &[RootPolynomial; 5],
    roots: [u16; 5],
) -> Result<[RootPolynomial; 5], AllocError>
    requires not_constant { EachPart (λ j. 1 < length (polynomial_at old.now j)) }
    requires are_roots { EachPart (λ j. value_at plain_modulus (polynomial_at old.now j) (slice_index roots j) ≡ 0) }
    ensures { IfOk result (λ new. EachPart (λ j. LosesRoot (slice_index roots j) (polynomial_at old.now j) (polynomial_at new j))) }
{
    Ok([
        old[0].divided(alloc, roots[0])?,
        old[1].divided(alloc, roots[1])?,
        old[2].divided(alloc, roots[2])?,
        old[3].divided(alloc, roots[3])?,
        old[4].divided(alloc, roots[4])?,
    ])
}
