// The account of a sheet in plain words: what it holds, or why it is rejected.
#![tactic(auto)]

ghost use Rattle.std.specs.Prelude.{◌≡◌};
ghost use Rattle.account.specs.Accounts.{lacking, reported, links_told, guides_told};

use repertoire::{Link, leaving, reaching};
use scale::WeaveCost;
use sheet::decode;

mod display;
mod reports;

pub use reports::{Account, Rejection};

impl Account {
    // Whether so many links are too few for a chain: there is none, and one is needed, since start and goal differ.
    fn lacks(&self, count: usize) -> bool
        ensures { result ≡ lacking count self.now.contents.header }
    {
        let header = self.contents.header;
        count == 0 && header.start != header.goal
    }

    // Whether no chain can begin, since no link leaves the motif on the loom and another is ordered.
    fn cannot_begin(&self) -> bool
        ensures { result ≡ lacking self.now.leaving self.now.contents.header }
    {
        self.lacks(self.leaving)
    }

    // Whether no chain can end, since no link reaches the motif ordered and another is on the loom.
    fn cannot_end(&self) -> bool
        ensures { result ≡ lacking self.now.reaching self.now.contents.header }
    {
        self.lacks(self.reaching)
    }
}

// The longest sheet that is looked at, in bytes.
pub const MOST_BYTES: usize = 65536;

// The rows of links that the programs lend. No sheet that is looked at has more links, since the line of a link has 31
// bytes.
pub const LINK_ROWS: usize = 2114;

// The rows of guides that the programs lend, as many as a repertoire has motifs at most.
pub const GUIDE_ROWS: usize = 1024;

// The account of a sheet, whose links and guides are put into the rows.
pub fn report(
    sheet: &[u8],
    links: &mut [Link<WeaveCost>],
    guides: &mut [WeaveCost],
) -> Result<Account, Rejection>
    ensures value { result ≡ reported links.old guides.old sheet.now }
    ensures links { links.new ≡ links_told links.old guides.old sheet.now }
    ensures guides { guides.new ≡ guides_told links.old guides.old sheet.now }
{
    if sheet.len() > MOST_BYTES {
        return Err(Rejection::TooLong);
    }
    let contents = decode(sheet, links, guides).map_err(Rejection::Faulty)?;
    let read = &links[0..contents.links];
    Ok(Account {
        contents,
        leaving: leaving(read, contents.header.start),
        reaching: reaching(read, contents.header.goal),
    })
}
