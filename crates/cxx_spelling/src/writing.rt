//! What rules do.

ghost use Rattle.std.specs.Prelude.{◌≡◌, OnOk, codes, Ok};
ghost use Rattle.cxx_spelling.specs.Seen.{seen, Reaches};
ghost use Rattle.cxx_spelling.specs.Integers.{integer_type};
ghost use Rattle.cxx_spelling.specs.Translation.{wrote, wrote_if, advanced, taken_as, ends_with, wrote_qualifiers, takes_reference, takes_qualifier, ends_qualifiers, takes_word, writes_words, takes_long_double, act};
ghost use Rattle.cxx_spelling.specs.Translation.{Going};
ghost use Rattle.cxx_spelling.specs.declared.symbol.Action.TheVariants as action;

use crate::bytes::byte_at;
use crate::integers::NO_WORDS;
use crate::kind::Kind;
use crate::qualifiers::NO_QUALIFIERS;
use crate::symbol::Action;
use crate::token::first_token;
use crate::translation::{Progress, Translation};
use std::alloc::AllocError;

impl Translation<'_> {
    // A text is written.
    pub(crate) fn write(&mut self, text: &[u8]) -> Result<(), AllocError>
        ensures { OnOk result (seen self.new ≡ wrote text.now (seen self.old)) }
    {
        self.out.extend_from_slice(text)?;
        Ok(())
    }

    // A text is written where it is wanted.
    fn write_if(&mut self, wanted: bool, text: &[u8]) -> Result<(), AllocError>
        ensures { OnOk result (seen self.new ≡ wrote_if wanted text.now (seen self.old)) }
    {
        if wanted {
            self.out.extend_from_slice(text)?;
        }
        Ok(())
    }

    // The next token is read.
    pub(crate) fn advance(&mut self)
        ensures { seen self.new ≡ advanced (seen self.old) }
    {
        self.token = first_token(self.token.rest);
    }

    // A text is written, and nothing is read.
    pub(crate) fn put(&mut self, text: &[u8]) -> Result<Progress, AllocError>
        ensures { Reaches (seen self.new) result (Going (wrote text.now (seen self.old))) }
    {
        self.write(text)?;
        Ok(Progress::Going)
    }

    // A text is written for the token.
    pub(crate) fn take_as(&mut self, text: &[u8]) -> Result<Progress, AllocError>
        ensures { Reaches (seen self.new) result (Going (taken_as text.now (seen self.old))) }
    {
        self.write(text)?;
        self.advance();
        Ok(Progress::Going)
    }

    // The token is written as it stands.
    fn take(&mut self) -> Result<Progress, AllocError>
        ensures { Reaches (seen self.new) result (act action.Take (seen self.old)) }
    {
        let text = self.token.text;
        self.take_as(text)
    }

    // A reference, which stands behind no other one.
    fn take_reference(&mut self) -> Result<Progress, AllocError>
        ensures { Reaches (seen self.new) result (takes_reference (seen self.old)) }
    {
        if self.ends_with(b'&') {
            Ok(Progress::Refused)
        } else {
            self.take()
        }
    }

    // The token falls.
    fn skip(&mut self) -> Progress
        ensures { Reaches (seen self.new) (Ok result) (act action.Skip (seen self.old)) }
    {
        self.advance();
        Progress::Going
    }

    // Whether the text ends with a byte.
    pub(crate) fn ends_with(&self, b: u8) -> bool
        ensures { result ≡ ends_with b self.now.out.items }
    {
        byte_at(self.out.as_slice(), self.out.len().saturating_sub(1)) == b
    }

    // A set of qualifiers begins.
    #[tactic(auto, using(crate::proofs::StackLaws::stacked_push))]
    fn begin_qualifiers(&mut self) -> Result<Progress, AllocError>
        ensures { Reaches (seen self.new) result (act action.BeginQualifiers (seen self.old)) }
    {
        self.outer.push(self.qualifiers)?;
        self.qualifiers = NO_QUALIFIERS;
        Ok(Progress::Going)
    }

    fn take_qualifier(&mut self) -> Progress
        ensures { Reaches (seen self.new) (Ok result) (takes_qualifier self.old.token.kind (seen self.old)) }
    {
        match self.token.kind {
            Kind::Qualifier(qualifier) => {
                self.qualifiers = self.qualifiers.with(qualifier);
                self.advance();
                Progress::Going
            }
            _ => Progress::Refused,
        }
    }

    // The qualifiers in their order.
    fn write_qualifiers(&mut self) -> Result<(), AllocError>
        ensures { OnOk result (seen self.new ≡ wrote_qualifiers self.old.qualifiers (seen self.old)) }
    {
        let qualifiers = self.qualifiers;
        self.write_if(qualifiers.constant, b" const")?;
        self.write_if(qualifiers.volatile, b" volatile")?;
        self.write_if(qualifiers.restrict, b" restrict")
    }

    // The set is written, and the one around it is open again.
    #[tactic(auto, using(crate::proofs::StackLaws::stacked_push))]
    fn end_qualifiers(&mut self) -> Result<Progress, AllocError>
        ensures { Reaches (seen self.new) result (act action.EndQualifiers (seen self.old)) }
    {
        self.write_qualifiers()?;
        match self.outer.pop() {
            None => Ok(Progress::Refused),
            Some(qualifiers) => {
                self.qualifiers = qualifiers;
                Ok(Progress::Going)
            }
        }
    }

    fn take_word(&mut self) -> Progress
        ensures { Reaches (seen self.new) (Ok result) (takes_word self.old.token.kind (seen self.old)) }
    {
        match self.token.kind {
            Kind::Integer(word) => {
                self.words = self.words.with(word);
                self.advance();
                Progress::Going
            }
            _ => Progress::Refused,
        }
    }

    fn write_words(&mut self) -> Result<Progress, AllocError>
        ensures { Reaches (seen self.new) result (writes_words (integer_type self.old.words) (seen self.old)) }
    {
        match self.words.integer_type() {
            None => Ok(Progress::Refused),
            Some(integer) => {
                self.write(integer.name())?;
                self.words = NO_WORDS;
                Ok(Progress::Going)
            }
        }
    }

    fn take_long_double(&mut self) -> Result<Progress, AllocError>
        ensures { Reaches (seen self.new) result (takes_long_double (seen self.old)) }
    {
        if self.words.is_long() {
            self.words = NO_WORDS;
            self.take_as(b"long double")
        } else {
            Ok(Progress::Refused)
        }
    }

    fn take_greater(&mut self) -> Result<Progress, AllocError>
        ensures { Reaches (seen self.new) result (act action.TakeGreater (seen self.old)) }
    {
        if self.ends_with(b'>') {
            self.take_as(b" >")
        } else {
            self.take_as(b">")
        }
    }

    /// What a rule does is done.
    pub(crate) fn act(&mut self, action: Action) -> Result<Progress, AllocError>
        ensures { Reaches (seen self.new) result (act action (seen self.old)) }
    {
        match action {
            Action::Take => self.take(),
            Action::Skip => Ok(self.skip()),
            Action::WriteSpace => self.put(b" "),
            Action::WriteOpen => self.put(b"("),
            Action::WriteClose => self.put(b")"),
            Action::WriteVoid => self.put(b"void"),
            Action::WriteBool => self.put(b"bool"),
            Action::BeginQualifiers => self.begin_qualifiers(),
            Action::TakeQualifier => Ok(self.take_qualifier()),
            Action::EndQualifiers => self.end_qualifiers(),
            Action::TakeWord => Ok(self.take_word()),
            Action::WriteWords => self.write_words(),
            Action::TakeLongDouble => self.take_long_double(),
            Action::TakeGreater => self.take_greater(),
            Action::TakeReference => self.take_reference(),
            Action::BeginGap => self.begin_gap(0),
            Action::LeaveGap => Ok(self.leave_gap()),
            Action::FillOpen => Ok(self.fill_gap(b'(')),
            Action::FillSpace => Ok(self.fill_gap(b' ')),
            Action::WriteNestedOpen => self.write_nested_open(),
            Action::TakeNumber => self.take_number(),
            Action::TakeOperand => self.take_operand(),
            Action::TakeFloating => self.take_floating(),
            Action::TakeFloatingCast => self.take_floating_cast(),
            Action::TakeCharacter => self.take_character(),
            Action::TakeIntegerCast => self.take_integer_cast(),
            Action::TakeBoolCast => self.take_bool_cast(),
        }
    }
}
