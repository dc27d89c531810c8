ghost use Rattle.xapi_parameters.specs.Links.{LinksAreReadAlone, LinksAreReadBack};

/// A link that stands in a page is read as itself, and as no other.
pub fn law_of_links()
    ensures back { LinksAreReadBack }
    ensures alone { LinksAreReadAlone }
{}
