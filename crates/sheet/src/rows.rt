// What has a line of its own in a sheet: an entry, or a record that stands in a row, which is a link or the guide of a
// motif.
ghost use Rattle.std.specs.Prelude.{◌≡◌};
ghost use Rattle.frames.specs.declared.entries.Entry.{Entry};

use frames::Entry;

pub trait Row: Copy {
    ghost said: { Self → Entry };

    // The entry that says this record.
    fn entry(self) -> Entry
        ensures { result ≡ said self };
}
