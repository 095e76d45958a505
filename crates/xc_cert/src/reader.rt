// A certificate text, read line after line.
ghost use Rattle.std.specs.Prelude.{◌≡◌, ◌<◌, ◌≤◌, IfOk, length};
ghost use Rattle.xc_cert.specs.Steps.Reading.{Takes, Grows, progress_of, no_progress, after, is_behind, is_not_zero, is_positive, takes_bindings, takes_lows, with_more, value_more, binding_more, low_more, high_more, before_more, opened_more, values_more, multipliers_more, refutation_of, certificate_at_end};
ghost use Rattle.xc_system.specs.Kept.{IsRefutation};

use crate::line::{Line, Word};
use std::alloc::{AllocError, Global};
use xc_frac::Frac;
use xc_lists::Items;
use xc_system::{Certificate, Refutation};

/// Where in a certificate text the reader is.
#[derive(Clone, Copy)]
pub enum Stage {
    /// Before the line `certificate 1`.
    Before,
    /// Behind that line.
    Opened,
    /// Among values.
    Values,
    /// Among multipliers of equations.
    Bindings,
    /// Among multipliers of low ends.
    Lows,
    /// Among multipliers of high ends.
    Highs,
    /// Behind the end of a certificate with values.
    Solved,
    /// Behind the end of one with multipliers.
    Refuted,
}

/// What was read of the lines so far.
#[derive(Drop)]
pub struct Reader {
    pub stage: Stage,
    pub values: Vec<Frac>,
    pub bindings: Vec<(u32, Frac)>,
    pub lows: Vec<(u32, Frac)>,
    pub highs: Vec<(u32, Frac)>,
}

impl Reader {
    /// A reader before the first line.
    pub fn new(alloc: Global) -> Reader
        ensures { progress_of result ≡ no_progress }
    {
        Reader {
            stage: Stage::Before,
            values: Vec::new(alloc),
            bindings: Vec::new(alloc),
            lows: Vec::new(alloc),
            highs: Vec::new(alloc),
        }
    }

    /// Takes the next line, or says that it does not fit.
    pub fn take(&mut self, line: Line) -> Result<bool, AllocError>
        ensures { IfOk result (λ taken. Takes (after (progress_of self.old) line) taken (progress_of self.new)) }
    {
        match self.stage {
            Stage::Before => Ok(self.take_before(line)),
            Stage::Opened => Ok(self.take_kind(line)),
            Stage::Values => self.take_value(line),
            Stage::Bindings | Stage::Lows | Stage::Highs => self.take_multiplier(line),
            Stage::Solved | Stage::Refuted => Ok(false),
        }
    }

    // A line before the certificate, or its first line.
    fn take_before(&mut self, line: Line) -> bool
        ensures { Takes (before_more (progress_of self.old) line) result (progress_of self.new) }
    {
        if let Line::Opening = line {
            self.stage = Stage::Opened;
        }
        true
    }

    // The line that says which kind of certificate it is.
    fn take_kind(&mut self, line: Line) -> bool
        ensures { Takes (opened_more (progress_of self.old) line) result (progress_of self.new) }
    {
        match line {
            Line::Feasible => {
                self.stage = Stage::Values;
                true
            }
            Line::Infeasible => {
                self.stage = Stage::Bindings;
                true
            }
            _ => false,
        }
    }

    // A value, or the end.
    fn take_value(&mut self, line: Line) -> Result<bool, AllocError>
        ensures { IfOk result (λ taken. Takes (values_more (progress_of self.old) line) taken (progress_of self.new)) }
    {
        match line {
            Line::Numbered(word, number, value) => self.take_numbered_value(word, number, value),
            Line::End => {
                self.stage = Stage::Solved;
                Ok(true)
            }
            _ => Ok(false),
        }
    }

    // A line with a number among values.
    fn take_numbered_value(
        &mut self,
        word: Word,
        number: u32,
        value: Frac,
    ) -> Result<bool, AllocError>
        ensures { IfOk result (λ taken. Takes (values_more (progress_of self.old) (Line.Numbered word number value)) taken (progress_of self.new)) }
    {
        match word {
            Word::Value => self.push_value(number, value),
            _ => Ok(false),
        }
    }

    // The value with the next number.
    fn push_value(&mut self, number: u32, value: Frac) -> Result<bool, AllocError>
        ensures { IfOk result (λ taken. Takes (value_more (progress_of self.old) number value) taken (progress_of self.new)) }
    {
        if number as usize != self.values.len() {
            return Ok(false);
        }
        self.values.push(value)?;
        Ok(true)
    }

    // A multiplier, or the end.
    fn take_multiplier(&mut self, line: Line) -> Result<bool, AllocError>
        ensures { IfOk result (λ taken. Takes (multipliers_more (progress_of self.old) line) taken (progress_of self.new)) }
    {
        match line {
            Line::Numbered(word, number, multiplier) => self.take_numbered_multiplier(
                word, number, multiplier,
            ),
            Line::End => {
                self.stage = Stage::Refuted;
                Ok(true)
            }
            _ => Ok(false),
        }
    }

    // A line with a number among multipliers.
    fn take_numbered_multiplier(
        &mut self,
        word: Word,
        number: u32,
        multiplier: Frac,
    ) -> Result<bool, AllocError>
        ensures { IfOk result (λ taken. Takes (multipliers_more (progress_of self.old) (Line.Numbered word number multiplier)) taken (progress_of self.new)) }
    {
        match word {
            Word::Binding => self.push_binding(number, multiplier),
            Word::Low => self.push_low(number, multiplier),
            Word::High => self.push_high(number, multiplier),
            Word::Value => Ok(false),
        }
    }

    // A multiplier of an equation.
    fn push_binding(&mut self, number: u32, multiplier: Frac) -> Result<bool, AllocError>
        ensures { IfOk result (λ taken. Takes (binding_more (progress_of self.old) number multiplier) taken (progress_of self.new)) }
    {
        if !takes_bindings(self.stage) {
            return Ok(false);
        }
        if !is_not_zero(multiplier) {
            return Ok(false);
        }
        if !is_behind(&self.bindings, number) {
            return Ok(false);
        }
        self.bindings.push((number, multiplier))?;
        Ok(true)
    }

    // A multiplier of a low end.
    fn push_low(&mut self, number: u32, multiplier: Frac) -> Result<bool, AllocError>
        ensures { IfOk result (λ taken. Takes (low_more (progress_of self.old) number multiplier) taken (progress_of self.new)) }
    {
        if !takes_lows(self.stage) {
            return Ok(false);
        }
        if !is_positive(multiplier) {
            return Ok(false);
        }
        if !is_behind(&self.lows, number) {
            return Ok(false);
        }
        self.lows.push((number, multiplier))?;
        self.stage = Stage::Lows;
        Ok(true)
    }

    // A multiplier of a high end.
    fn push_high(&mut self, number: u32, multiplier: Frac) -> Result<bool, AllocError>
        ensures { IfOk result (λ taken. Takes (high_more (progress_of self.old) number multiplier) taken (progress_of self.new)) }
    {
        if !is_positive(multiplier) {
            return Ok(false);
        }
        if !is_behind(&self.highs, number) {
            return Ok(false);
        }
        self.highs.push((number, multiplier))?;
        self.stage = Stage::Highs;
        Ok(true)
    }

    /// The certificate, once its end was read.
    pub fn certificate(self) -> Option<Certificate>
        requires { IsRefutation (refutation_of (progress_of self)) }
        ensures { result ≡ certificate_at_end (progress_of self) }
    {
        match self.stage {
            Stage::Solved => Some(Certificate::Feasible(Items::of(self.values))),
            Stage::Refuted => Some(Certificate::Infeasible(Refutation::of(
                self.bindings,
                self.lows,
                self.highs,
            ))),
            _ => None,
        }
    }
}

// Whether a multiplier of an equation may follow.
fn takes_bindings(stage: Stage) -> bool
    ensures { result ≡ takes_bindings stage }
{
    match stage {
        Stage::Bindings => true,
        _ => false,
    }
}

// Whether a multiplier of a low end may follow.
fn takes_lows(stage: Stage) -> bool
    ensures { result ≡ takes_lows stage }
{
    match stage {
        Stage::Bindings | Stage::Lows => true,
        _ => false,
    }
}

// Whether an equation may be multiplied by it.
fn is_not_zero(multiplier: Frac) -> bool
    ensures { result ≡ is_not_zero multiplier }
{
    multiplier.num().unsigned_abs() != 0
}

// Whether an end may be multiplied by it.
fn is_positive(multiplier: Frac) -> bool
    ensures { result ≡ is_positive multiplier }
{
    multiplier.num() > 0
}

// Whether a number is behind the last that is listed.
fn is_behind(listed: &[(u32, Frac)], number: u32) -> bool
    ensures { result ≡ is_behind listed.now number }
{
    match listed.last() {
        Some(last) => last.0 < number,
        None => true,
    }
}
