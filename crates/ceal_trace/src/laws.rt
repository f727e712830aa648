// The laws of a trace's list of nodes.

ghost use Rattle.std.specs.Prelude.{◌≡◌, ◌↔◌, ◌+◌, ◌++◌, ◌∷◌, [], ℕ, List, Option, length, true, false, Some};
ghost use Rattle.ceal_base.specs.Trace.{Trace, flat, steps_of};
ghost use Rattle.ceal_order.specs.Stamps.{Distinct};
ghost use Rattle.ceal_trace.specs.Nodes.{Timeline, Entry, IsTrace, is_read, is_plain, ends, end_in, node_at, stamps_in};
ghost use Rattle.ceal_trace.specs.Nodes.{has_node, position, entry_at, steps_sum, with_entry_after, without_entry};
ghost use Rattle.ceal_trace.specs.Nodes.{changed_at};
ghost use Rattle.ceal_trace.specs.Items.{forest_of, unclosed, Nests, Parted};

/// A law: nodes that nest are the flat form of a forest, whose steps are theirs.
pub fn nodes_are_a_forest()
    ensures law { (nodes : List Entry) → Nests nodes
        → (t : Trace) × (flat t ≡ forest_of nodes) × (steps_of t ≡ steps_sum nodes) }
{}

/// Laws: the stamps, the items and the steps of nodes are those of their parts, and the reads that are not closed after
/// some nodes are those that the later part leaves of the earlier part's.
pub fn parts_follow()
    ensures stamps { (front back : List Entry)
        → stamps_in (front ++ back) ≡ stamps_in front ++ stamps_in back }
    ensures items { (front back : List Entry)
        → forest_of (front ++ back) ≡ forest_of front ++ forest_of back }
    ensures steps { (front back : List Entry)
        → steps_sum (front ++ back) ≡ steps_sum front + steps_sum back }
    ensures unclosed { (front back : List Entry) (reads : Option (List ℕ))
        → unclosed reads (front ++ back) ≡ unclosed (unclosed reads front) back }
{}

/// Laws of nodes that nest. A read of a trace that nests has an end, and parts the nodes into those before it, those
/// inside, which nest, and those after its end. What nests may be put in and taken out anywhere: a node that is no
/// read and no end, and a read with its end around nodes that nest.
pub fn nodes_nest()
    ensures parted { (t : Timeline) → IsTrace t → Nests t.nodes → (read : ℕ)
        → is_read (node_at read t.nodes) ≡ true
        → (p : Parted read t.nodes) × (end_in read t.nodes ≡ Some p.ends'.stamp) }
    ensures put { (before inside behind : List Entry) → Nests inside
        → Nests (before ++ (inside ++ behind)) ↔ Nests (before ++ behind) }
    ensures plain { (e : Entry) → is_plain e.node ≡ true → is_read (Some e.node) ≡ false
        → Nests (e ∷ []) }
    ensures read { (begin end : Entry) (inside : List Entry) → is_read (Some begin.node) ≡ true
        → ends begin.stamp end.node ≡ true
        → Nests inside → Nests (begin ∷ (inside ++ end ∷ [])) }
{}

/// Laws: a stamp that a node has parts the nodes at that node, and it is the stamp of no other one.
pub fn a_stamp_parts()
    ensures at { (s : ℕ) (nodes : List Entry) → has_node s nodes ≡ true
        → (front : List Entry) × (e : Entry) × (back : List Entry) × (nodes ≡ front ++ e ∷ back)
        × (e.stamp ≡ s) × (has_node s front ≡ false) }
    ensures before { (front : List Entry) (e : Entry) (back : List Entry)
        → Distinct (stamps_in (front ++ e ∷ back)) → has_node e.stamp front ≡ false }
    ensures behind { (front : List Entry) (e : Entry) (back : List Entry)
        → Distinct (stamps_in (front ++ e ∷ back)) → has_node e.stamp back ≡ false }
{}

/// Laws: what is looked up or done at a stamp is done between the nodes before it and those after it.
pub fn done_between()
    ensures entry { (e : Entry) (back front : List Entry) → has_node e.stamp front ≡ false
        → entry_at e.stamp (front ++ e ∷ back) ≡ Some e }
    ensures position { (e : Entry) (back front : List Entry) → has_node e.stamp front ≡ false
        → position e.stamp (front ++ e ∷ back) ≡ length front }
    ensures after { (e : Entry) (back : List Entry) (new : Entry) (front : List Entry)
        → has_node e.stamp front ≡ false
        → with_entry_after e.stamp new (front ++ e ∷ back) ≡ front ++ e ∷ new ∷ back }
    ensures without { (e : Entry) (back front : List Entry) → has_node e.stamp front ≡ false
        → without_entry e.stamp (front ++ e ∷ back) ≡ front ++ back }
    ensures changed { (e : Entry) (back : List Entry) (change : Entry → Entry) (front : List Entry)
        → has_node e.stamp front ≡ false
        → changed_at e.stamp change (front ++ e ∷ back) ≡ front ++ change e ∷ back }
{}
