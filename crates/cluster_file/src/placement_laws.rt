ghost use Rattle.cluster_file.specs.PlacementLaws.{
  PlacedAreLawful,
  PlacedAreFirst,
  OrderOfListingDoesNotMatter,
  OthersMayLeave,
  NewcomersChangeOnePlace,
  InputsDiffer,
};

/// A law: the layout of every name is lawful, whatever its bytes are.
pub fn placed_are_lawful()
    ensures { PlacedAreLawful }
{}

/// A law: the members of a name's layout are n of the nodes, each comes before the members after it, and each node that
/// is no member comes after all of them.
pub fn placed_are_first()
    ensures { PlacedAreFirst }
{}

/// A law: the layout of a name does not depend on the order in which the nodes are listed.
pub fn order_of_listing_does_not_matter()
    ensures { OrderOfListingDoesNotMatter }
{}

/// A law: if a node is not a member, the layout is the same without this node. So taking a node out of the list changes
/// only the layouts of the names that had it as a member.
pub fn others_may_leave()
    ensures { OthersMayLeave }
{}

/// A law: with one more node, the members are the first n of the old members and this node. So at most one of the old
/// members is replaced, and the others keep their order.
pub fn newcomers_change_one_place()
    ensures { NewcomersChangeOnePlace }
{}

/// A law: two different pairs of a node and a name never give the same bytes to the hash, since the node's number is
/// one byte and comes before the name.
pub fn inputs_differ()
    ensures { InputsDiffer }
{}
