//! What the words of the command line ask for.
ghost use Rattle.std.specs.Prelude.{◌≡◌, IfOk, Some};

use crate::options::{count_of, takes_value};
use std::alloc::Global;
use su_base::{NoMemory, Str};

/// A talk that is asked for.
#[derive(Drop)]
pub struct Asked {
    pub file: Option<Str>,
    pub schema: Option<Str>,
    pub folder: Option<Str>,
    pub frames: bool,
    pub workers: Option<u8>,
}

impl Asked {
    ghost use Rattle.sysu_shell.specs.Words.{nothing, once, with_file, with_frames, with_workers, with_value, with_word, asked_by};

    fn nothing() -> Asked
        ensures { result ≡ nothing }
    {
        Asked {
            file: None,
            schema: None,
            folder: None,
            frames: false,
            workers: None,
        }
    }

    /// FILE, once, and no empty text.
    fn with_file(mut self, alloc: Global, path: &Str) -> Result<Option<Asked>, NoMemory>
        ensures { IfOk result (λ next. next ≡ with_file self path.now) }
    {
        if path.as_str().is_empty() || self.file.is_some() {
            return Ok(None);
        }
        self.file = Some(path.copy(alloc)?);
        Ok(Some(self))
    }

    fn with_frames(mut self) -> Option<Asked>
        ensures { result ≡ with_frames self }
    {
        if self.frames {
            return None;
        }
        self.frames = true;
        Some(self)
    }

    fn with_workers(mut self, digits: &Str) -> Option<Asked>
        ensures { result ≡ with_workers self digits.now }
    {
        let count = count_of(digits.as_str().as_bytes())?;
        if self.workers.is_some() {
            return None;
        }
        self.workers = Some(count);
        Some(self)
    }

    fn with_schema(mut self, alloc: Global, path: &Str) -> Result<Option<Asked>, NoMemory>
        ensures { IfOk result (λ next. next ≡ once self.schema (record self { schema = Some path.now })) }
    {
        if self.schema.is_some() {
            return Ok(None);
        }
        self.schema = Some(path.copy(alloc)?);
        Ok(Some(self))
    }

    fn with_folder(mut self, alloc: Global, path: &Str) -> Result<Option<Asked>, NoMemory>
        ensures { IfOk result (λ next. next ≡ once self.folder (record self { folder = Some path.now })) }
    {
        if self.folder.is_some() {
            return Ok(None);
        }
        self.folder = Some(path.copy(alloc)?);
        Ok(Some(self))
    }

    /// An option and its value.
    fn with_value(self, alloc: Global, option: &Str, value: &Str) -> Result<Option<Asked>, NoMemory>
        ensures { IfOk result (λ next. next ≡ with_value self option.now value.now) }
    {
        let option = option.as_str();
        if option == "--schema" {
            return self.with_schema(alloc, value);
        }
        if option == "--files" {
            return self.with_folder(alloc, value);
        }
        if option == "--workers" {
            return Ok(self.with_workers(value));
        }
        Ok(None)
    }

    /// `--frames`, or FILE.
    fn with_word(self, alloc: Global, word: &Str) -> Result<Option<Asked>, NoMemory>
        ensures { IfOk result (λ next. next ≡ with_word self word.now) }
    {
        if word.as_str() == "--frames" {
            return Ok(self.with_frames());
        }
        self.with_file(alloc, word)
    }

    /// What these words ask for besides.
    fn with_words(self, alloc: Global, words: &[Str]) -> Result<Option<Asked>, NoMemory>
        ensures { IfOk result (λ asked. asked ≡ asked_by self words.now) }
    {
        let [word, rest @ ..] = words else {
            return Ok(Some(self));
        };
        if !takes_value(word) {
            return match self.with_word(alloc, word)? {
                Some(next) => next.with_words(alloc, rest),
                None => Ok(None),
            };
        }
        let [value, rest @ ..] = rest else {
            return Ok(None);
        };
        match self.with_value(alloc, word, value)? {
            Some(next) => next.with_words(alloc, rest),
            None => Ok(None),
        }
    }

    /// What the words ask for, if they are of the stated form: each option at most once, in any order.
    pub fn of_words(alloc: Global, words: &[Str]) -> Result<Option<Asked>, NoMemory>
        ensures { IfOk result (λ asked. asked ≡ asked_by nothing words.now) }
    {
        Asked::nothing().with_words(alloc, words)
    }
}
