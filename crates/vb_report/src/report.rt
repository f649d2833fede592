// A report: lines of a history and a listing, in one buffer.
ghost use Rattle.std.specs.Prelude.{◌≡◌, ◌++◌, ◌≤◌, ◌<◌, ℕ, [], length, map, take, IsOk, OnOk, OnErr, slice_get, Some};
ghost use Rattle.vb_cause.specs.Faults.{counted};
ghost use Rattle.vb_report.specs.Text.{entry_text, history_text, epoch_line, named_line, listing_text, listed_of, listed_text};
ghost use Rattle.vb_report.specs.Reports.{Adds, AddsHistory};

use crate::line::{put_entry, put_epoch, put_listed, put_named};
use std::alloc::{AllocError, Global};
use std::marker::Model;
use vb_cause::raised;
use vb_cloud::Cloud;
use vb_hist::Entry;
use vb_list::Items;
use vb_tree::{Bytes, Kind, Path};

/// Lines to be printed. Contracts see their bytes, and how often no memory was found for more of them. A call that finds
/// none counts that once, and leaves the lines as its clause says.
#[derive(Debug, Drop)]
pub struct Report {
    alloc: Global,
    text: Bytes,
    line: Bytes,
    shortages: u64,
}

impl Model for Report {
    ghost use Rattle.vb_report.specs.Reports.{ReportView};

    ghost Value = { ReportView };

    ghost view = { λ a. record { text = a.text; shortages = a.shortages } };
}

impl Report {
    /// A report with no line.
    pub fn new(alloc: Global) -> Report
        ensures { result ≡ record { text = []; shortages = 0 } }
    {
        Report {
            alloc,
            text: Items::new(alloc),
            line: Items::new(alloc),
            shortages: 0,
        }
    }

    /// The bytes of all lines.
    pub fn bytes(&self) -> &[u8]
        ensures { result.now ≡ self.now.text }
    {
        self.text.slice()
    }

    /// Adds the line of an entry.
    pub fn entry(&mut self, entry: &Entry) -> Result<(), AllocError>
        ensures { Adds self.old (entry_text entry.now) result self.new }
    {
        self.line.truncate(0);
        let made = put_entry(&mut self.line, self.alloc, entry);
        add_made(&mut self.text, self.line.slice(), made, &mut self.shortages)
    }

    /// Adds a line of these words and a number behind them.
    pub fn numbered(&mut self, words: &[u8], number: u64) -> Result<(), AllocError>
        ensures { Adds self.old (epoch_line words.now number) result self.new }
    {
        self.line.truncate(0);
        let made = put_epoch(&mut self.line, words, number);
        add_made(&mut self.text, self.line.slice(), made, &mut self.shortages)
    }

    /// Adds a line of these words, a number behind them, and a name behind that.
    pub fn named(&mut self, words: &[u8], number: u64, name: &[u8]) -> Result<(), AllocError>
        ensures { Adds self.old (named_line words.now number name.now) result self.new }
    {
        self.line.truncate(0);
        let made = put_named(&mut self.line, words, number, name);
        add_made(&mut self.text, self.line.slice(), made, &mut self.shortages)
    }

    /// Adds the lines of a history. Where memory runs out, it has whole lines as far as memory was found.
    pub fn history(&mut self, entries: &[Entry]) -> Result<(), AllocError>
        ensures { AddsHistory self.old entries.now result self.new }
    {
        for entry in entries {
            self.entry(entry)?;
        }
        Ok(())
    }

    /// Adds the listing of what a cloud shows, under a heading. Where memory runs out, the lines stay.
    pub fn listing(&mut self, heading: &[u8], cloud: &Cloud) -> Result<(), AllocError>
        ensures { Adds self.old (listing_text heading.now cloud.now.epoch (map listed_of cloud.now.tree)) result self.new }
    {
        let before = self.text.len();
        let outcome = self.list_entries(heading, cloud);
        if outcome.is_err() {
            self.text.truncate(before);
        }
        outcome
    }

    /// Adds the heading and the entries, as far as memory is found.
    fn list_entries(&mut self, heading: &[u8], cloud: &Cloud) -> Result<(), AllocError>
        ensures ok { OnOk result (self.new ≡ record {
          text = self.old.text ++ listing_text heading.now cloud.now.epoch (map listed_of cloud.now.tree);
          shortages = self.old.shortages;
        }) }
        ensures err { OnErr result (take (length self.old.text) self.new.text ≡ self.old.text) }
        ensures counted { OnErr result (self.new.shortages ≡ counted self.old.shortages) }
    {
        self.numbered(heading, cloud.epoch())?;
        for i in 0..cloud.len() {
            let (path, kind, bytes) = cloud.entry(i);
            self.listed(path, kind, bytes.len() as u64)?;
        }
        Ok(())
    }

    /// Adds the line of a listed entry.
    fn listed(&mut self, path: &Path, kind: Kind, length: u64) -> Result<(), AllocError>
        ensures { Adds self.old (listed_text (record { path = path.now; kind = kind; len = length })) result self.new }
    {
        self.line.truncate(0);
        let made = put_listed(&mut self.line, path, kind, length);
        add_made(&mut self.text, self.line.slice(), made, &mut self.shortages)
    }
}

/// Adds a line to a text where it was made, and counts where no memory was found for it.
fn add_made(
    text: &mut Bytes,
    line: &[u8],
    made: Result<(), AllocError>,
    shortages: &mut u64,
) -> Result<(), AllocError>
    ensures made { OnOk result (IsOk made) }
    ensures ok { OnOk result (text.new ≡ text.old ++ line.now) }
    ensures err { OnErr result (text.new ≡ text.old) }
    ensures none { OnOk result (shortages.new ≡ shortages.old) }
    ensures one { OnErr result (shortages.new ≡ counted shortages.old) }
{
    let outcome = match made {
        Ok(()) => text.extend(line),
        Err(error) => Err(error),
    };
    if outcome.is_err() {
        *shortages = raised(*shortages);
    }
    outcome
}
