//! What rules do with literals.

ghost use Rattle.std.specs.Prelude.{◌≡◌, OnOk, codes, IfOk, Ok, option_map};
ghost use Rattle.cxx_spelling.specs.Seen.{digits_bytes, seen, seen_token, Reaches};
ghost use Rattle.cxx_spelling.specs.Integers.{integer_type, suffix_of};
ghost use Rattle.cxx_spelling.specs.Translation.{wrote, advanced, taken_as, wrote_typed, wrote_bool, wrote_bracketed, takes_literal, takes_integer_cast, act, operand, integer_digits, character_digits, suffix_text, floating_type, floating_digits};
ghost use Rattle.cxx_spelling.specs.Translation.{Going};
ghost use Rattle.cxx_spelling.specs.declared.symbol.Action.TheVariants as action;

use crate::integers::{IntegerType, NO_WORDS};
use crate::literals::{
    Digits, character_digits, floating_digits, floating_type, integer_digits, operand, suffix_text,
};
use crate::translation::{Progress, Translation};
use std::alloc::AllocError;

impl<'n> Translation<'n> {
    pub(crate) fn take_number(&mut self) -> Result<Progress, AllocError>
        ensures { Reaches (seen self.new) result (act action.TakeNumber (seen self.old)) }
    {
        let text = self.token.text;
        match integer_digits(*self.out.allocator(), self.release, text)? {
            None => Ok(Progress::Refused),
            Some(digits) => {
                self.write(digits.bytes())?;
                self.take_as(suffix_text(text))
            }
        }
    }

    // The literal in a cast. None where the release refuses it.
    fn operand(&self) -> Result<Option<Digits<'n>>, AllocError>
        ensures { IfOk result (λ digits. option_map digits_bytes digits ≡ operand self.now.release (seen_token self.now.token)) }
    {
        operand(*self.out.allocator(), self.release, self.token)
    }

    pub(crate) fn take_operand(&mut self) -> Result<Progress, AllocError>
        ensures { Reaches (seen self.new) result (act action.TakeOperand (seen self.old)) }
    {
        match self.operand()? {
            None => Ok(Progress::Refused),
            Some(digits) => self.take_as(digits.bytes()),
        }
    }

    pub(crate) fn take_character(&mut self) -> Result<Progress, AllocError>
        ensures { Reaches (seen self.new) result (act action.TakeCharacter (seen self.old)) }
    {
        match character_digits(*self.out.allocator(), self.release, self.token.text)? {
            None => Ok(Progress::Refused),
            Some(digits) => {
                self.write(b"(char)")?;
                self.take_as(digits.bytes())
            }
        }
    }

    // A literal of an integer type: with its suffix, or behind its type.
    fn write_typed(&mut self, integer: IntegerType, digits: &[u8]) -> Result<(), AllocError>
        ensures { OnOk result (seen self.new ≡ wrote_typed integer (suffix_of integer) digits.now (seen self.old)) }
    {
        match integer.suffix() {
            Some(suffix) => {
                self.write(digits)?;
                self.write(suffix)
            }
            None => {
                self.write(b"(")?;
                self.write(integer.name())?;
                self.write(b")")?;
                self.write(digits)
            }
        }
    }

    pub(crate) fn take_integer_cast(&mut self) -> Result<Progress, AllocError>
        ensures { Reaches (seen self.new) result (takes_integer_cast (integer_type self.old.words) (seen self.old)) }
    {
        match self.words.integer_type() {
            None => Ok(Progress::Refused),
            Some(integer) => {
                self.words = NO_WORDS;
                self.take_typed(integer)
            }
        }
    }

    // The literal in a cast to an integer type.
    fn take_typed(&mut self, integer: IntegerType) -> Result<Progress, AllocError>
        ensures { Reaches (seen self.new) result (takes_literal (wrote_typed integer (suffix_of integer)) (operand self.old.release (seen_token self.old.token)) (seen self.old)) }
    {
        match self.operand()? {
            None => Ok(Progress::Refused),
            Some(digits) => {
                self.write_typed(integer, digits.bytes())?;
                self.advance();
                Ok(Progress::Going)
            }
        }
    }

    // A literal of `bool`.
    fn write_bool(&mut self, digits: &[u8]) -> Result<(), AllocError>
        ensures { OnOk result (seen self.new ≡ wrote_bool digits.now (seen self.old)) }
    {
        if digits == b"0".as_slice() {
            self.write(b"false")
        } else if digits == b"1".as_slice() {
            self.write(b"true")
        } else {
            self.write(b"(bool)")?;
            self.write(digits)
        }
    }

    pub(crate) fn take_bool_cast(&mut self) -> Result<Progress, AllocError>
        ensures { Reaches (seen self.new) result (act action.TakeBoolCast (seen self.old)) }
    {
        match self.operand()? {
            None => Ok(Progress::Refused),
            Some(digits) => {
                self.write_bool(digits.bytes())?;
                self.advance();
                Ok(Progress::Going)
            }
        }
    }

    // A literal of a floating-point type, in brackets behind its sign.
    fn write_bracketed(&mut self, digits: &[u8]) -> Result<(), AllocError>
        ensures { OnOk result (seen self.new ≡ wrote_bracketed digits.now (seen self.old)) }
    {
        match digits.split_first() {
            None => self.write(b"[]"),
            Some((first, behind)) => {
                if *first == b'-' {
                    self.write(b"-[")?;
                    self.write(behind)?;
                } else {
                    self.write(b"[")?;
                    self.write(digits)?;
                }
                self.write(b"]")
            }
        }
    }

    pub(crate) fn take_floating(&mut self) -> Result<Progress, AllocError>
        ensures { Reaches (seen self.new) result (act action.TakeFloating (seen self.old)) }
    {
        let text = self.token.text;
        self.write(floating_type(text))?;
        self.write_bracketed(floating_digits(text))?;
        self.advance();
        Ok(Progress::Going)
    }

    pub(crate) fn take_floating_cast(&mut self) -> Result<Progress, AllocError>
        ensures { Reaches (seen self.new) result (act action.TakeFloatingCast (seen self.old)) }
    {
        match self.operand()? {
            None => Ok(Progress::Refused),
            Some(digits) => {
                self.write_bracketed(digits.bytes())?;
                self.advance();
                Ok(Progress::Going)
            }
        }
    }
}
