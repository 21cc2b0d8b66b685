// What a sheet holds beside its rows of links and guides, and how many of these it has.
use repertoire::Header;
use scale::WeaveCost;

#[derive(Clone, Copy)]
pub struct Contents {
    pub header: Header,
    // One limit for each part of a cost.
    pub limits: WeaveCost,
    pub links: usize,
    pub guides: usize,
}
