// The command line: a command, then files and options. An option begins with `--` and takes the next word as its value.
use super::number::plain;
use anyhow::{Context, bail, ensure};
use std::alloc::Global;

// The words of the command line, borrowed.
#[derive(Drop)]
pub(crate) struct Arguments<'a> {
    pub command: &'a str,
    pub files: Vec<&'a str>,
    // Each with its value, as they stand.
    options: Vec<(&'a str, &'a str)>,
}

impl<'a> Arguments<'a> {
    // Parses the words, the program's name first.
    pub(crate) fn parse(alloc: Global, words: &'a [String]) -> anyhow::Result<Arguments<'a>> {
        let command = match words {
            [_, command, ..] => command.as_str(),
            _ => "",
        };
        let mut files = Vec::new(alloc);
        let mut options = Vec::new(alloc);
        // The option whose value comes next.
        let mut due = None;
        for word in words.iter().skip(2) {
            let word = word.as_str();
            match due.take() {
                Some(option) => options.push((option, word))?,
                None if word.starts_with("--") => due = Some(word),
                None => files.push(word)?,
            }
        }
        ensure!(due.is_none(), "the last option has no value");
        Ok(Arguments {
            command,
            files,
            options,
        })
    }

    // Fails unless each option is one of these.
    pub(crate) fn check_options(&self, known: &[&str]) -> anyhow::Result<()> {
        ensure!(
            self.options.iter().all(|(name, _)| known.contains(name)),
            "an option that this command does not have"
        );
        Ok(())
    }

    // Fails where there is an option.
    pub(crate) fn check_no_options(&self) -> anyhow::Result<()> {
        ensure!(self.options.is_empty(), "this command has no options");
        Ok(())
    }

    // The file that the command is run on, where there is exactly one.
    pub(crate) fn only_file(&self) -> anyhow::Result<&'a str> {
        match self.files.as_slice() {
            [file] => Ok(*file),
            _ => bail!("this command takes one file"),
        }
    }

    // The value of an option, the last where it stands more than once.
    pub(crate) fn value(&self, option: &str) -> Option<&'a str> {
        let (_, value) = self.options.iter().rev().find(|(name, _)| *name == option)?;
        Some(*value)
    }

    // The number that an option gives, or none where it does not stand.
    pub(crate) fn number_given(&self, option: &str) -> anyhow::Result<Option<u64>> {
        let Some(value) = self.value(option) else {
            return Ok(None);
        };
        let number = plain(value.as_bytes()).context("the value of an option is not a number")?;
        Ok(Some(number))
    }

    // The number that an option gives, or else the default.
    pub(crate) fn number(&self, option: &str, default: usize) -> anyhow::Result<usize> {
        let given = self.number_given(option)?;
        Ok(given.map_or(default, |number| number as usize))
    }
}
