//! The command `params`, and the parameters of a command's words.
ghost use Rattle.std.specs.Prelude.{◌≡◌, IfOk, IfErr, string_bytes};
ghost use Rattle.noise_ledger.specs.Verdicts.{parameters_of};
ghost use Rattle.psi_cli.specs.declared.status.Status.TheVariants.{NoMemory};
ghost use Rattle.psi_cli.specs.Commands.{word_parameters};
ghost use Rattle.psi_cli.specs.Outcomes.{ParamsMake};
ghost use Rattle.psi_cli.specs.Texts.{figures_text, number_line, numbers_line, refusal_text};

use crate::outcome::Outcome;
use crate::status::Status;
use crate::texts::{push_number, push_numbers};
use noise_ledger::{Ledger, ParamFault, Params, check};
use psi_residue::Q;
use std::alloc::{AllocError, Global};

// The bytes of a ciphertext in a query, and those before the ciphertexts.
const CIPHERTEXT_BYTES: u128 = 81920;

const HEADER_BYTES: u128 = 8;

/// The parameters that the words of a command give.
pub(crate) fn word_parameters(
    rows: u8,
    capacity: u16,
    units: u8,
    drop: Option<u8>,
    counted: bool,
) -> Params
    ensures { parameters_of result ≡ word_parameters rows capacity units drop counted }
{
    let (form, drop) = match drop {
        Some(drop) => (2, drop),
        None => (1, 0),
    };
    Params {
        form,
        rows,
        capacity,
        units,
        drop,
        spare: u16::from(counted),
    }
}

/// What `params` comes to: the figures of parameters that pass, or why they are refused.
pub(crate) fn judge(alloc: Global, params: &Params) -> Result<Outcome, Status>
    ensures made { IfOk result (λ outcome.
        ParamsMake (parameters_of params.now) outcome.status outcome.text.items) }
    ensures fault { IfErr result (λ why. why ≡ NoMemory) }
{
    match check(params) {
        Ok(ledger) => Ok(Outcome {
            status: Status::Done,
            text: figures(alloc, params, &ledger)?.into_bytes(),
        }),
        Err(fault) => Ok(Outcome {
            status: Status::Parameters,
            text: refusal(alloc, fault)?.into_bytes(),
        }),
    }
}

// The figures of parameters, with their ledger.
fn figures(alloc: Global, params: &Params, ledger: &Ledger) -> Result<String, AllocError>
    ensures { IfOk result (λ text. string_bytes text
        ≡ figures_text (parameters_of params.now) ledger.now) }
{
    let ciphertexts = u128::from(params.rows) * u128::from(params.capacity);
    let mut text = String::new(alloc);
    push_number(&mut text, "ciphertexts", ciphertexts)?;
    push_number(
        &mut text,
        "query",
        HEADER_BYTES + CIPHERTEXT_BYTES * ciphertexts,
    )?;
    push_number(&mut text, "carry", ledger.carry)?;
    push_number(&mut text, "noise", ledger.noise)?;
    push_number(&mut text, "used", ledger.used)?;
    push_number(&mut text, "modulus", Q)?;
    Ok(text)
}

// Why parameters are refused.
fn refusal(alloc: Global, fault: ParamFault) -> Result<String, AllocError>
    ensures { IfOk result (λ text. string_bytes text ≡ refusal_text fault) }
{
    match fault {
        ParamFault::Range { field } => one_number(alloc, "refused range", u128::from(field)),
        ParamFault::Size { ciphertexts, cells } => {
            two_numbers(alloc, "refused size", ciphertexts, cells)
        }
        ParamFault::Noise { bound } => one_number(alloc, "refused noise", bound),
    }
}

// A line with a word and a number.
fn one_number(alloc: Global, name: &str, number: u128) -> Result<String, AllocError>
    ensures { IfOk result (λ text. string_bytes text ≡ number_line name.now number) }
{
    let mut text = String::new(alloc);
    push_number(&mut text, name, number)?;
    Ok(text)
}

// A line with a word and two numbers.
fn two_numbers(alloc: Global, name: &str, first: u32, second: u32) -> Result<String, AllocError>
    ensures { IfOk result (λ text. string_bytes text ≡ numbers_line name.now first second) }
{
    let mut text = String::new(alloc);
    push_numbers(&mut text, name, first, second)?;
    Ok(text)
}
