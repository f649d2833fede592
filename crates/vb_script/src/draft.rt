// What was read so far.
ghost use Rattle.std.specs.Prelude.{◌≡◌, ◌++◌, IfOk};
ghost use Rattle.std.specs.Option.{option_to_list};
ghost use Rattle.vb_script.specs.Scripts.{is_blank, sections_of, has_writer};

use std::alloc::AllocError;
use std::marker::Model;
use vb_geometry::Geometry;
use vb_hist::{Scripts, WriterScript};

/// What was read so far: the disk, the sections that ended, and the one that lines go into.
#[derive(Debug, Drop)]
pub(crate) struct Draft {
    pub(crate) disk: Option<Geometry>,
    pub(crate) ended: Scripts,
    pub(crate) section: Option<WriterScript>,
}

impl Model for Draft {
    ghost use Rattle.vb_script.specs.Scripts as grammar;

    ghost Value = { grammar.Draft };

    ghost view = { λ a. record { disk = a.disk; ended = a.ended; section = a.section } };
}

/// Whether one of these writers has this number. There are at most 64.
fn is_among(writer: u32, scripts: &[WriterScript]) -> bool
    ensures { result ≡ has_writer writer scripts.now }
{
    scripts.iter().any(|script| script.writer == writer)
}

impl Draft {
    /// Whether nothing is read so far.
    pub(crate) fn is_blank(&self) -> bool
        ensures { result ≡ is_blank self.now }
    {
        self.disk.is_none() && self.section.is_none()
    }

    /// Whether a writer has this number.
    pub(crate) fn has_writer(&self, writer: u32) -> bool
        ensures { result ≡ has_writer writer (sections_of self.now) }
    {
        if is_among(writer, self.ended.slice()) {
            return true;
        }
        match &self.section {
            Some(section) => section.writer == writer,
            None => false,
        }
    }
}

/// The sections so far: those that ended, and the one that lines go into.
pub(crate) fn sections(ended: Scripts, section: Option<WriterScript>) -> Result<Scripts, AllocError>
    ensures { IfOk result (λ scripts. scripts ≡ ended ++ option_to_list section) }
{
    let mut scripts = ended;
    if let Some(section) = section {
        scripts.add(section)?;
    }
    Ok(scripts)
}
