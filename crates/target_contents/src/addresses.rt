//! The addresses of references, and roles that have two.
ghost use Rattle.std.specs.Prelude.{◌≡◌, ◌⊎◌, ◌++◌, ◌∷◌, [], ◌<◌, ◌&&◌, ℕ, List, length, map, filter, option_map, unwrap_or, false, All, Contains, Some, None, IfOk, OnOk, if◌then◌else◌, bytes_eq};
ghost use Rattle.std.specs.List.{flat_map};
ghost use Rattle.std.specs.Option.{option_map_or};
ghost use Rattle.ix_base.specs.Asks.{asks};
ghost use Rattle.ix_base.specs.Attributes.{value_of};
ghost use Rattle.ix_base.specs.Elements.{place_of};
ghost use Rattle.ix_base.specs.LocatedElements.{Located, base_in, is_kind, located};
ghost use Rattle.ix_base.specs.LinkRules as rules;
ghost use Rattle.ix_base.specs.Namespaces.{xlink_namespace};
ghost use Rattle.ix_base.specs.Token.{token_of};
ghost use Rattle.ix_base.specs.Trees.{tree_of};
ghost use Rattle.ix_base.specs.Rows.{row};
ghost use Rattle.ix_base.specs.declared.kind.Kind.TheVariants as kinds;
ghost use Rattle.ix_base.specs.declared.rule.Rule.TheVariants.{L17};
ghost use Rattle.id_table.specs.Model.{asked};
ghost use Rattle.id_table.specs.Tables.{all_located};
ghost use Rattle.target_contents.specs.Faults.{redirected_at};
ghost use Rattle.target_contents.specs.RoleAddresses.{AreSeen, SeesAll, refers_to, seen_at, seen_from, seen_with};
ghost use Rattle.target_contents.specs.Visits.{AreOnPages};

use id_table::Index;
use ix_base::namespaces::XLINK;
use ix_base::{
    Breaches, Element, Kind, NoMemory, Rule, Spot, Text, attr_of, kind_of, token, token_at,
};
use scopes::Bases;
use std::alloc::Global;
use text_map::TextMap;

/// The value of an attribute in the namespace of links, or the empty text where it isn't there.
#[tactic(auto, unfolding(ix_base::specs::Namespaces::xlink_namespace))]
fn link_value<'a>(e: &Element<'a>, local: &str) -> &'a str
    ensures { result.now ≡ unwrap_or (value_of (tree_of e.now).head.attrs xlink_namespace local.now) [] }
{
    match attr_of(e, XLINK, local) {
        Some(value) => value,
        None => "",
    }
}

/// Its token.
pub(crate) fn link_token<'a>(e: &Element<'a>, local: &str) -> &'a str
    ensures { result.now ≡ token_of (unwrap_or (value_of (tree_of e.now).head.attrs xlink_namespace local.now) []) }
{
    token(link_value(e, local))
}

/// The address of a reference.
pub(crate) fn address_of(alloc: Global, bases: &Bases, spot: &Spot<'_>) -> Result<Text, NoMemory>
    requires { (place_of spot.now).page < length bases.now.pages }
    ensures { IfOk result (λ t. t ≡ rules.address_of (base_in bases.now.pages) (located spot.now)) }
{
    bases.resolved(alloc, spot, link_token(spot.element, "href"))
}

/// The address of the first reference to a role, and whether another one has another address.
#[derive(Drop)]
pub(crate) struct Seen {
    pub(crate) address: Text,
    differs: bool,
}

/// What was seen of each role, or of each arcrole, by its URI.
pub(crate) type Roles<'a> = TextMap<'a, Seen>;

/// What is seen with one more address.
fn with_address(seen: Option<Seen>, address: Text) -> Seen
    ensures { result ≡ seen_with seen address }
{
    match seen {
        Some(seen) => Seen {
            differs: seen.differs || seen.address.as_str() != address.as_str(),
            address: seen.address,
        },
        None => Seen {
            address,
            differs: false,
        },
    }
}

/// Notes an address of a role.
fn note<'a>(roles: &mut Roles<'a>, uri: &'a str, address: Text) -> Result<(), NoMemory>
    ensures { OnOk result ((q : List ℕ) → seen_at roles.new q
        ≡ (if bytes_eq q uri.entry.now then Some (seen_with (seen_at roles.old q) address) else seen_at roles.old q)) }
{
    let seen = roles.remove(uri);
    roles.insert(uri, with_address(seen, address))
}

/// The URI that a reference of this kind is for.
fn uri_as<'a>(kind: Kind, spot: &Spot<'a>) -> Option<&'a str>
    requires { (kind ≡ kinds.RoleRef) ⊎ (kind ≡ kinds.ArcroleRef) }
    ensures { option_map (λ s. s.now) result ≡ (if is_kind kind (located spot.now) then rules.uri_of (located spot.now) else None) }
{
    if kind_of(spot) != kind {
        return None;
    }
    match kind {
        Kind::RoleRef => token_at(spot.element, "roleURI"),
        _ => token_at(spot.element, "arcroleURI"),
    }
}

/// Notes the address of a reference, where it is of this kind.
fn note_at<'a>(
    alloc: Global,
    bases: &Bases,
    kind: Kind,
    spot: &Spot<'a>,
    roles: &mut Roles<'a>,
) -> Result<(), NoMemory>
    requires kind { (kind ≡ kinds.RoleRef) ⊎ (kind ≡ kinds.ArcroleRef) }
    requires page { (place_of spot.now).page < length bases.now.pages }
    ensures { OnOk result ((q : List ℕ) → seen_at roles.new q ≡ seen_from (seen_at roles.old q)
        (map (rules.address_of (base_in bases.now.pages)) (filter (refers_to kind q) (located spot.now ∷ [])))) }
{
    if let Some(uri) = uri_as(kind, spot) {
        note(roles, uri, address_of(alloc, bases, spot)?)?;
    }
    Ok(())
}

/// What is seen of each role, or of each arcrole.
fn roles_of<'a>(
    alloc: Global,
    bases: &Bases,
    kind: Kind,
    spots: &[&'a Spot<'a>],
) -> Result<Roles<'a>, NoMemory>
    requires kind { (kind ≡ kinds.RoleRef) ⊎ (kind ≡ kinds.ArcroleRef) }
    requires pages { AreOnPages bases.now.pages spots.now }
    ensures { IfOk result (AreSeen kind (base_in bases.now.pages) (all_located spots.now)) }
{
    let mut roles = TextMap::new(alloc);
    for spot in spots {
        note_at(alloc, bases, kind, spot, &mut roles)?;
    }
    Ok(roles)
}

/// Whether the role of a reference of this kind was seen with two addresses.
fn has_two<'a>(roles: &Roles<'a>, kind: Kind, spot: &Spot<'a>) -> bool
    requires { (kind ≡ kinds.RoleRef) ⊎ (kind ≡ kinds.ArcroleRef) }
    ensures { result ≡ (is_kind kind (located spot.now)
        && option_map_or (λ uri. option_map_or (λ s. s.differs) (seen_at roles.now uri) false) (rules.uri_of (located spot.now)) false) }
{
    match uri_as(kind, spot) {
        Some(uri) => match roles.get(uri) {
            Some(seen) => seen.differs,
            None => false,
        },
        None => false,
    }
}

/// What is seen of the roles and of the arcroles of a set.
pub(crate) struct SeenRoles<'a> {
    pub(crate) roles: Roles<'a>,
    pub(crate) arcroles: Roles<'a>,
}

impl Drop for SeenRoles<'_> {
    fn drop(self) {
        let SeenRoles {
            roles: _,
            arcroles: _,
        } = self;
    }
}

fn seen_roles_of<'a>(
    alloc: Global,
    bases: &Bases,
    spots: &[&'a Spot<'a>],
) -> Result<SeenRoles<'a>, NoMemory>
    requires { AreOnPages bases.now.pages spots.now }
    ensures { IfOk result (SeesAll (base_in bases.now.pages) (all_located spots.now)) }
{
    Ok(SeenRoles {
        roles: roles_of(alloc, bases, Kind::RoleRef, spots)?,
        arcroles: roles_of(alloc, bases, Kind::ArcroleRef, spots)?,
    })
}

/// Whether a reference is to a role, or to an arcrole, that has two addresses.
fn is_redirected<'a>(seen_roles: &SeenRoles<'a>, spot: &Spot<'a>) -> bool
    ensures { (bases : Located → List ℕ) (es : List Located) → SeesAll bases es seen_roles.now → Contains es (located spot.now)
        → result ≡ rules.has_two_addresses bases (asks es) (located spot.now) }
{
    has_two(&seen_roles.roles, Kind::RoleRef, spot)
        || has_two(&seen_roles.arcroles, Kind::ArcroleRef, spot)
}

/// Adds a reference to a role, or to an arcrole, that has two addresses.
fn add_if_redirected(
    spot: &Spot<'_>,
    is_redirected: bool,
    found: &mut Breaches,
) -> Result<(), NoMemory>
    ensures { OnOk result (found.new ≡ found.old ++ row is_redirected (rules.found_at (located spot.now) L17)) }
{
    found.add_if(spot.element.place, Rule::L17, is_redirected)
}

/// Adds the references to roles, and to arcroles, that have two addresses, and gives what is seen of all of them.
pub(crate) fn add_redirected<'a>(
    alloc: Global,
    index: &Index<'a>,
    bases: &Bases,
    found: &mut Breaches,
) -> Result<SeenRoles<'a>, NoMemory>
    requires { All (λ e. e.page < length bases.now.pages) index.now.spots }
    ensures seen { IfOk result (SeesAll (base_in bases.now.pages) index.now.spots) }
    ensures faults { OnOk result (found.new
        ≡ found.old ++ flat_map (redirected_at (base_in bases.now.pages) (asked index.now)) index.now.spots) }
{
    let seen_roles = seen_roles_of(alloc, bases, index.others())?;
    for spot in index.others() {
        add_if_redirected(spot, is_redirected(&seen_roles, spot), found)?;
    }
    Ok(seen_roles)
}
