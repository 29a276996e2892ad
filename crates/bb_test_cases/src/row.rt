//! A row: the words of a command line, and the files that they name. Files are in memory, so a row needs no file system
//! and its result depends on nothing but the row.

use anyhow::{Result, bail};
use bb_ladder::run;
use bb_outside::{MemFiles, Sink, put_all};
use std::alloc::{AllocError, Global};

/// The row that is being read. Words and files stay for later rows until they are given again, so that rows on one pair
/// of texts repeat nothing.
#[derive(Drop)]
pub struct Row {
    // Empty before the first row.
    name: String,
    // Empty before the first line `words ..`.
    words: Vec<String>,
    // Each line of a text ends with a newline here, also the last.
    files: Vec<(String, String)>,
    // A line of a text must follow its file or another line of it.
    is_in_file: bool,
}

// The word `words` itself is in the place of the program's name.
fn words(alloc: Global, line: &str) -> Result<Vec<String>, AllocError> {
    let mut words = Vec::new(alloc);
    for word in line.split(' ') {
        words.push(String::from_str(alloc, word)?)?;
    }
    Ok(words)
}

fn put<K: Sink>(out: &mut K, text: &str) -> Result<()> {
    if put_all(out, text.as_bytes()).is_err() {
        bail!("standard output failed");
    }
    Ok(())
}

impl Row {
    /// No name yet, so `run` does nothing.
    pub fn new(alloc: Global) -> Row {
        Row {
            name: String::new(alloc),
            words: Vec::new(alloc),
            files: Vec::new(alloc),
            is_in_file: false,
        }
    }

    // A file of the same name is replaced.
    fn begin_file(&mut self, alloc: Global, name: &str) -> Result<(), AllocError> {
        self.files.retain(|file| file.0.as_str() != name);
        self.files
            .push((String::from_str(alloc, name)?, String::new(alloc)))?;
        self.is_in_file = true;
        Ok(())
    }

    // Lines of a text begin with `|`, so that no text can be taken for a row.
    fn continues(&mut self, line: &str) -> Result<bool, AllocError> {
        match (line.strip_prefix("|"), self.files.last_mut()) {
            (Some(rest), Some(file)) if self.is_in_file => {
                file.1.push_str(rest)?;
                file.1.push('\n')?;
                Ok(true)
            }
            _ => Ok(false),
        }
    }

    /// False for a line that is no part of any row: a typo must not pass for a comment.
    pub fn takes(&mut self, alloc: Global, line: &str) -> Result<bool, AllocError> {
        if line.is_empty() || line.starts_with("//") {
            return Ok(true);
        }
        if let Some(name) = line.strip_prefix("file ") {
            self.begin_file(alloc, name)?;
            return Ok(true);
        }
        if self.continues(line)? {
            return Ok(true);
        }
        self.is_in_file = false;
        if let Some(name) = line.strip_prefix("row ") {
            self.name = String::from_str(alloc, name)?;
            return Ok(!name.is_empty());
        }
        if line == "words" || line.starts_with("words ") {
            self.words = words(alloc, line)?;
            return Ok(true);
        }
        Ok(false)
    }

    // Without the newline after the last line, so that a text can also end within a line.
    fn held(&self, alloc: Global) -> Result<MemFiles, AllocError> {
        let mut held = Vec::new(alloc);
        for (name, text) in &self.files {
            let text = text.strip_suffix("\n").unwrap_or(text);
            held.push((name.clone()?, text.as_bytes().to_vec(alloc)?))?;
        }
        Ok(MemFiles::new(held, Vec::new(alloc)))
    }

    /// The name comes before the report, so that the first byte that differs is in the row that fails.
    pub fn run<K: Sink>(&self, alloc: Global, out: &mut K) -> Result<()> {
        if self.name.is_empty() {
            return Ok(());
        }
        if self.words.is_empty() {
            bail!("row {}", self.name);
        }
        put(out, &format!(in alloc; "row {}\n", self.name)?)?;
        let status = run(alloc, &self.words, &mut self.held(alloc)?, out);
        put(out, &format!(in alloc; "status {status}\n\n")?)?;
        Ok(())
    }
}
