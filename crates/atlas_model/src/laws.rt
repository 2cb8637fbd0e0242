//! Laws over the definitions of docs/MODEL.md, each the contract of a function that does nothing.
ghost use Rattle.std.specs.Prelude.{◌≡◌, ◌^◌, true, false, [], ◌∷◌, pos};
ghost use Rattle.atlas_model.specs.Boxes.Axis.{Horizontal, Vertical};
ghost use Rattle.atlas_model.specs.Trees.{grant, live};
ghost use Rattle.atlas_model.specs.Trees.Members.{End, Free, Alloc};
ghost use Rattle.atlas_model.specs.Changes.{fresh, only, release, grown};
ghost use Rattle.atlas_model.specs.Laws.Examples.{Shows, sides, box, both, one_corner, other_corner, capped_corner};
ghost use Rattle.atlas_model.specs.Laws.Examples.{grown_full, grown_below, quarters, row_of_three, half_between};
ghost use Rattle.atlas_model.specs.Choice.{up, class_of, IsPick};
ghost use Rattle.atlas_model.specs.Laws.ChoiceExamples.{IsDefaultPick, default_options, large_options, alike_boxes};
ghost use Rattle.atlas_model.specs.Laws.ChoiceExamples.{large_boxes, mixed_boxes};
ghost use Rattle.atlas_model.specs.Pixels.{options_of};
ghost use Rattle.atlas_model.specs.declared.allocation.TheConstants.{MOST_SLOTS};
ghost use Rattle.atlas_model.specs.declared.error.AtlasError.TheVariants.{Slots};
ghost use Rattle.atlas_model.specs.declared.options.TheConstants.{DEFAULT_OPTIONS};
ghost use Rattle.atlas_model.specs.States.{after_refit};
ghost use Rattle.atlas_model.specs.Refits.{Refits, RefitPasses, IsRanked, IsRefitOrder};
ghost use Rattle.atlas_model.specs.Laws.RefitExamples.{three_boxes, three_within, three_in_order, three_moved};
ghost use Rattle.atlas_model.specs.Laws.RefitExamples.{moved_tree, upright, one_older, five_calls, five_replies};
ghost use Rattle.atlas_model.specs.Laws.RefitExamples.{after_five, since_five};
ghost use Rattle.atlas_model.specs.Runs.{Run};
ghost use Rattle.atlas_model.specs.Steps.{Step};
ghost use Rattle.atlas_model.specs.Steps.AtlasCall.{Rearrange};
ghost use Rattle.atlas_model.specs.Steps.AtlasReply.{Changed, Refused};
ghost use Rattle.atlas_model.specs.Laws.TreeLaws.{LeavesTile, AreasAddUp, ReleasesInAnyOrder, GrantsAreUndone};
ghost use Rattle.atlas_model.specs.Laws.TreeLaws.{GrowthAndReleaseSwap, NothingLiveIsOneFree, PlacingsKeepTrees};
ghost use Rattle.atlas_model.specs.Laws.TreeLaws.{ReleasesKeepTrees, GrowthsKeepTrees, FreedHasRoom, MembersAreCounted};
ghost use Rattle.atlas_model.specs.Laws.RoomLaws.{RoomComesFromInside, FreeingMakesOneBox, OneFreeBoxAround};
ghost use Rattle.atlas_model.specs.Laws.RoomLaws.{RoomIsAround, RoomIsKept, NothingShownChangesNothing};
ghost use Rattle.atlas_model.specs.Laws.RoomLaws.{FreedTwice, RoomGrows};
ghost use Rattle.atlas_model.specs.Laws.StepLaws.{StepsKeep, PicksAreOne, PicksExist, SmallerFits, GrantsLieInside};
ghost use Rattle.atlas_model.specs.Laws.StepLaws.{FreeingsRemoveOne, GrowthsKeepBoxes, RearrangingsLoseNothing};
ghost use Rattle.atlas_model.specs.Laws.StepLaws.{RefusalsChangeNothing, StepsAnswerAsDue};
ghost use Rattle.atlas_model.specs.Simple.SimpleRuns.{GuardedAreDisjoint, SimpleRunsKeepGuard, SimpleStartsGuard};
ghost use Rattle.atlas_model.specs.Laws.RunLaws.{RunsKeepOrder, RunsLeaveNoTrace};
ghost use Rattle.atlas_model.specs.Laws.Existence.{RoundingIsLeast, StartsAreSound, StepsExist};
ghost use Rattle.atlas_model.specs.Renaming.{RenamingChangesNothing, AnswersWithoutIds, LiveNamesCount};
ghost use Rattle.atlas_model.specs.Callers.{SoundIsTiled, LiveHaveBoxes, LiveShareNothing, LiveLieWithin};
ghost use Rattle.atlas_model.specs.Callers.{LiveAreGuarded, IdleHasRoom, GrantsAreGivenBack, ManyAreGivenBack};

/// In a well formed tree of cuts each unit square of the atlas lies in exactly one leaf's box, and no
/// such box is empty or passes the sides of the atlas.
#[tactic(auto, using(crate::proofs::TreeLemmas::TreeTiles::leaves_tile))]
pub fn tiling()
    ensures { LeavesTile }
{}

/// The areas of the leaves' boxes add up to the width times the height of the atlas.
#[tactic(auto, using(crate::proofs::TreeLemmas::TreeTiles::areas_add_up))]
pub fn areas()
    ensures { AreasAddUp }
{}

/// Ids may be freed in any order, in one go or one after another, and what is left is the same tree.
#[tactic(auto, using(crate::proofs::TreeLemmas::TreeReleases::releases_in_any_order))]
pub fn release_any_order()
    ensures { ReleasesInAnyOrder }
{}

/// A grant leaves no trace once it is freed, whatever is freed with it.
#[tactic(auto, using(crate::proofs::TreeLemmas::TreeUndone::grant_undone))]
pub fn grant_undone()
    ensures { GrantsAreUndone }
{}

/// A growth and a freeing may come in either order. Only where one free box is left may the two trees
/// differ, in the axis and so the extent of that box, which is the whole atlas in both.
#[tactic(auto, using(crate::proofs::TreeLemmas::TreeGrowth::growth_and_release_swap))]
pub fn growth_released()
    ensures { GrowthAndReleaseSwap }
{}

/// A well formed normal tree without a live leaf is one free box, the whole atlas.
#[tactic(auto, using(crate::proofs::TreeLemmas::TreeIdle::nothing_live))]
pub fn nothing_live()
    ensures { NothingLiveIsOneFree }
{}

/// A placing keeps a tree well formed and normal, puts the grant inside the free box, and changes no
/// other grant.
pub fn placed()
    ensures { PlacingsKeepTrees }
{}

/// A freeing keeps a tree well formed, leaves it normal, takes away what it frees, and moves no other
/// box.
pub fn released()
    ensures { ReleasesKeepTrees }
{}

/// A growth keeps a tree well formed and normal, and every live box; each earlier free box lies inside
/// a free box after it.
pub fn grown_keeps()
    ensures { GrowthsKeepTrees }
{}

/// Right after a live box is freed, a free box has room for its sides.
#[tactic(auto, using(crate::proofs::TreeLemmas::TreeRoom::freed_has_room))]
pub fn freed_has_room()
    ensures { FreedHasRoom }
{}

/// A placing adds as many members as it needs, at most four; a growth as many as it needs, at most
/// three; a freeing none.
#[tactic(auto, using(crate::proofs::TreeLemmas::TreeCounts::members_are_counted))]
pub fn counts()
    ensures { MembersAreCounted }
{}

/// Worked examples: what the trees of `specs/Laws/Examples.antt` show, by computation.
pub fn examples()
    ensures one_corner { Shows (sides 100 100) one_corner (grant 3 (box 0 0 20 60) ∷ [])
        (box 0 60 20 100 ∷ box 20 0 100 100 ∷ []) 5 }
    // Two sequences give way, one after the other.
    ensures one_corner_freed { release (only 3) one_corner ≡ fresh (sides 100 100) }
    ensures other_corner { Shows (sides 310 20) other_corner (grant 2 (box 0 0 300 10) ∷ [])
        (box 300 0 310 10 ∷ box 0 10 310 20 ∷ []) 4 }
    ensures capped_corner { Shows (sides 200000 200000) capped_corner (grant 2 (box 0 0 50000 100000) ∷ [])
        (box 50000 0 200000 100000 ∷ box 0 100000 200000 200000 ∷ []) 4 }
    ensures grown_full { Shows (sides 150 150) grown_full (grant 0 (box 0 0 100 100) ∷ [])
        (box 0 100 100 150 ∷ box 100 0 150 150 ∷ []) 4 }
    // The one box runs along the other axis than in a fresh tree, and keeps it.
    ensures grown_full_freed { release (only 0) grown_full ≡ record { axis = Horizontal; members = Free 150 End } }
    ensures one_box_grows { grown (sides 150 150) (sides 200 160) (release (only 0) grown_full)
        ≡ record { axis = Horizontal; members = Free 200 End } }
    // The free box at the end grows, and no member is added.
    ensures grown_below { Shows (sides 100 150) grown_below (grant 0 (box 0 0 100 60) ∷ []) (box 0 60 100 150 ∷ []) 2 }
    // Free boxes of two sequences stay apart.
    ensures quarters_left { Shows (sides 100 100) (release (both 1 3) quarters)
        (grant 2 (box 50 0 100 50) ∷ grant 4 (box 50 50 100 100) ∷ [])
        (box 0 0 50 50 ∷ box 0 50 50 100 ∷ []) 6 }
    ensures quarters_above { Shows (sides 100 100) (release (both 1 2) quarters)
        (grant 3 (box 0 50 50 100) ∷ grant 4 (box 50 50 100 100) ∷ []) (box 0 0 100 50 ∷ []) 4 }
    ensures two_of_three_freed { Shows (sides 300 200) (release (only 2) (release (only 3) row_of_three))
        (grant 0 (box 0 0 300 100) ∷ grant 4 (box 200 100 300 200) ∷ [])
        (box 0 100 200 200 ∷ []) 4 }
    // Its neighbours at both sides are free, and two sequences give way.
    ensures half_freed { release (only 5) half_between
        ≡ record { axis = Vertical; members = Alloc 0 100 (Free 100 End) } }
{}

/// The numbers of `DEFAULT_OPTIONS`: alignment 1 by 1, and the thresholds 32 and 256, in pixels.
pub fn default_options()
    ensures alignment { DEFAULT_OPTIONS.alignment ≡ record { width = pos 1; height = pos 1 } }
    ensures small { DEFAULT_OPTIONS.small_size_threshold ≡ pos 32 }
    ensures large { DEFAULT_OPTIONS.large_size_threshold ≡ pos 256 }
    ensures options { options_of DEFAULT_OPTIONS ≡ default_options }
{}

/// The most slots of an atlas are 16777216, as many as 24 bits can number.
pub fn most_slots()
    ensures number { MOST_SLOTS ≡ 16777216 }
    ensures bits { MOST_SLOTS ≡ 2 ^ 24 }
{}

/// Worked roundings and classes, by computation.
pub fn examples_of_choice()
    ensures up_to_step { up 9 8 ≡ 16 }
    ensures multiple_stays { up 8 8 ≡ 8 }
    ensures past_i32 { up 2147483647 2 ≡ 2147483648 }
    ensures small { class_of default_options (sides 31 31) ≡ 0 }
    ensures medium { class_of default_options (sides 32 1) ≡ 1 }
    ensures large { class_of default_options (sides 1 256) ≡ 2 }
    ensures all_large { class_of large_options (sides 1 1) ≡ 2 }
{}

/// Worked picks, by computation.
#[tactic(auto, using(crate::proofs::ChoiceLemmas::WorkedPicks::worked_picks))]
pub fn examples_of_picks()
    // The highest of boxes that are equally good, and then the one furthest left.
    ensures tie { IsDefaultPick 10 10 alike_boxes (box 30 0 50 20) }
    // An equal side wins, though a large request wants the greatest margin otherwise.
    ensures equal_side { IsDefaultPick 300 300 large_boxes (box 0 0 300 400) }
    ensures large { IsDefaultPick 301 301 large_boxes (box 400 0 900 500) }
    ensures medium { IsDefaultPick 100 250 large_boxes (box 0 400 310 710) }
    // The box of the lower class, though one of a higher class has an equal side.
    ensures class_above { IsDefaultPick 10 10 mixed_boxes (box 0 0 40 40) }
    ensures all_large { IsPick mixed_boxes large_options (sides 10 10) (box 100 0 110 300) }
{}

/// A worked rearrangement, of three boxes: its order, its changes, its failure, and the limits that it would pass.
#[tactic(auto, using(crate::proofs::StepLemmas::WorkedRefits::worked_refits))]
pub fn examples_of_refits()
    ensures three { Shows (sides 10 10) three_boxes
        (grant 0 (box 0 0 10 3) ∷ grant 3 (box 0 3 5 10) ∷ grant 2 (box 5 3 10 10) ∷ []) [] 4 }
    ensures order { IsRefitOrder (live (sides 10 10) three_boxes) three_in_order }
    // Areas count up to 2147483647, so these are equally large; and of ids the low 24 bits count.
    ensures capped_order { IsRanked (grant 1 (box 0 40000 100000 70000) ∷ grant 0 (box 0 0 100000 40000) ∷ []) }
    ensures order_by_slot { IsRanked (grant 16777219 (box 0 3 5 10) ∷ grant 50331650 (box 5 3 10 10) ∷ []) }
    ensures moved { Shows (sides 10 10) moved_tree (grant 3 (box 0 0 5 7) ∷ grant 6 (box 5 0 10 7) ∷ [])
        (box 0 7 5 10 ∷ box 5 7 10 10 ∷ []) 7 }
    ensures refit { Refits (sides 10 10) default_options 7 (fresh (sides 10 10)) three_in_order three_moved moved_tree }
    ensures passes_four { RefitPasses (sides 10 10) default_options 4 (fresh (sides 10 10)) three_in_order }
    ensures passes_five { RefitPasses (sides 10 10) default_options 5 (fresh (sides 10 10)) three_in_order }
    ensures passes_six { RefitPasses (sides 10 10) default_options 6 (fresh (sides 10 10)) three_in_order }
    ensures step { Step (three_within 7) Rearrange (Changed three_moved)
        (after_refit (three_within 7) (sides 10 10) moved_tree) }
    ensures refused { Step (three_within 4) Rearrange (Refused Slots) (three_within 4) }
{}

/// A worked run, with what it leaves once what it granted and still holds is freed.
#[tactic(auto, using(crate::proofs::StepLemmas::WorkedRefits::five_run))]
pub fn examples_of_runs()
    ensures run { Run one_older five_calls five_replies after_five }
    ensures held { since_five.held 5 ≡ true }
    ensures freed { since_five.held 4 ≡ false }
    ensures older { since_five.held 7 ≡ false }
    ensures size { since_five.size ≡ sides 10 12 }
    ensures tree { since_five.tree ≡ upright (Free 12 End) }
    ensures left { release since_five.held after_five.tree ≡ since_five.tree }
{}

/// Each step from a sound state leads to a sound state.
#[tactic(auto, using(crate::proofs::StepLemmas::SoundSteps::steps_keep))]
pub fn steps_keep()
    ensures { StepsKeep }
{}

/// Two picks of one request are one box.
pub fn picks_are_one()
    ensures { PicksAreOne }
{}

/// A request that has room has a pick.
#[tactic(auto, using(crate::proofs::ChoiceLemmas::PickExistence::picks_exist))]
pub fn picks_exist()
    ensures { PicksExist }
{}

/// A granted box lies inside an earlier free box, with sides barely above those asked for, and is added to what is
/// live.
pub fn grants_lie_inside()
    ensures { GrantsLieInside }
{}

/// A freeing removes exactly one live id and moves no other box; right after it a request of the box's sides has room.
pub fn freeings_remove_one()
    ensures { FreeingsRemoveOne }
{}

/// A growth keeps every live box, and each earlier free box lies inside a free box after it.
pub fn growths_keep_boxes()
    ensures { GrowthsKeepBoxes }
{}

/// A rearrangement moves each live id once or lists it as failed, and each moved box has its former sides.
#[tactic(auto, using(crate::proofs::StepLemmas::StepEffects::rearrangings_lose_nothing))]
pub fn rearrangings_lose_nothing()
    ensures { RearrangingsLoseNothing }
{}

/// A call that is refused, or has no room, changes nothing.
#[tactic(auto, using(crate::proofs::StepLemmas::StepEffects::refusals_change_nothing))]
pub fn refusals_change_nothing()
    ensures { RefusalsChangeNothing }
{}

/// A positive request that isn't refused for memory or slots is granted exactly if its rounded sides fit a free box.
#[tactic(auto, using(crate::proofs::StepLemmas::DueAnswers::steps_answer_as_due))]
pub fn steps_answer_as_due()
    ensures { StepsAnswerAsDue }
{}

/// Along each run live and free boxes tile the atlas as leaves of one normal tree, and each reply is owed.
pub fn runs_keep_order()
    ensures { RunsKeepOrder }
{}

/// After a run, freeing what it granted leaves the tree that the run makes without its grants.
#[tactic(auto, using(crate::proofs::StepLemmas::Traces::runs_leave_no_trace))]
pub fn runs_leave_no_trace()
    ensures { RunsLeaveNoTrace }
{}

/// From one state, if a request fits, each positive request no wider and no higher fits.
#[tactic(auto, using(crate::proofs::ChoiceLemmas::PickExistence::smaller_fits))]
pub fn smaller_fits()
    ensures { SmallerFits }
{}

/// Names in place of ids change nothing that a tree shows; placing, freeing and growing are the same under them.
#[tactic(auto, using(crate::proofs::TreeLemmas::RenamedTrees::renaming))]
pub fn renaming()
    ensures { RenamingChangesNothing }
{}

/// Two sound states that differ only in their ids answer each grant, freeing and growth alike, where neither is
/// refused for memory, and differ only in their ids after it.
#[tactic(auto, using(crate::proofs::StepLemmas::Alike::alike_laws))]
pub fn answers_without_ids()
    ensures alike { AnswersWithoutIds }
    // The names of ids that aren't live don't count.
    ensures live_names { LiveNamesCount }
{}

/// The rounded side is at least the side and a multiple of the alignment, and no such multiple is smaller.
#[tactic(auto, using(crate::proofs::StepLemmas::Existence::rounding_is_least))]
pub fn rounding()
    ensures { RoundingIsLeast }
{}

/// An atlas of a positive size, with valid options and a limit of at least 1, starts in a sound state.
#[tactic(auto, using(crate::proofs::StepLemmas::Existence::starts_are_sound))]
pub fn starts_are_sound()
    ensures { StartsAreSound }
{}

/// From each sound state whose limit is at most 16777216 each call has a reply other than a refusal for memory, and a
/// state that it leads to.
#[tactic(auto, using(crate::proofs::StepLemmas::Existence::steps_exist))]
pub fn steps_exist()
    ensures { StepsExist }
{}

/// In each sound state live and free boxes tile the atlas.
#[tactic(auto, using(crate::proofs::StepLemmas::LiveBoxes::sound_is_tiled))]
pub fn sound_is_tiled()
    ensures { SoundIsTiled }
{}

/// An id is live exactly if it has a box.
#[tactic(auto, using(crate::proofs::StepLemmas::LiveBoxes::live_have_boxes))]
pub fn live_ids_have_boxes()
    ensures { LiveHaveBoxes }
{}

/// The boxes of two live ids share no unit square, and lie apart.
#[tactic(auto, using(crate::proofs::StepLemmas::ApartBoxes::live_share_nothing))]
pub fn live_boxes_lie_apart()
    ensures { LiveShareNothing }
{}

/// Each live box is nonempty and lies within the atlas.
#[tactic(auto, using(crate::proofs::StepLemmas::ApartBoxes::live_lie_within))]
pub fn live_boxes_lie_within()
    ensures { LiveLieWithin }
{}

/// The live boxes are guarded: disjoint from each other and from the free boxes.
#[tactic(auto, using(crate::proofs::StepLemmas::GuardedBoxes::live_are_guarded))]
pub fn live_boxes_are_guarded()
    ensures { LiveAreGuarded }
{}

/// Where nothing is live, each positive request whose rounded sides fit the atlas has room.
#[tactic(auto, using(crate::proofs::StepLemmas::CallerGrants::idle_has_room))]
pub fn idle_has_room()
    ensures { IdleHasRoom }
{}

/// A grant that is freed leaves no trace: each id has the box that it had.
#[tactic(auto, using(crate::proofs::StepLemmas::GivenBack::grants_are_given_back))]
pub fn grants_are_given_back()
    ensures { GrantsAreGivenBack }
{}

/// Grants that are freed, one after another or by one call, leave no trace: each id has the box that it had.
#[tactic(auto, using(crate::proofs::StepLemmas::GivenBack::many_are_given_back))]
pub fn many_are_given_back()
    ensures { ManyAreGivenBack }
{}

/// Along each run of a simple allocator, boxes that are held stay within it and disjoint from each other and from the
/// free boxes, with those granted since.
#[tactic(auto, using(crate::proofs::SimpleLemmas::SimpleRuns::simple_runs_keep_guard))]
pub fn simple_runs_keep_guard()
    ensures { SimpleRunsKeepGuard }
{}

/// Boxes that are guarded are disjoint from each other.
pub fn guarded_are_disjoint()
    ensures { GuardedAreDisjoint }
{}

/// After a creation, a clearing and a reset of a simple allocator no box is held, and after a start from an atlas the
/// boxes that are live there are.
#[tactic(auto, using(crate::proofs::SimpleLemmas::SimpleRuns::simple_starts_guard))]
pub fn simple_starts_guard()
    ensures { SimpleStartsGuard }
{}

/// A box that is free once a set of ids is freed is free once those of the set are freed whose boxes lie inside it.
pub fn room_comes_from_inside()
    ensures { RoomComesFromInside }
{}

/// Where one id more is freed, each free box was free without it, or a live box of that id lies inside it.
pub fn freeing_makes_one_box()
    ensures { FreeingMakesOneBox }
{}

/// Two free boxes that hold one nonempty box are one.
pub fn one_free_box_around()
    ensures { OneFreeBoxAround }
{}

/// Where a request has no room once a set of ids is freed, and doesn't fit the free box that is around the box of one id
/// more once that is freed too, it has no room then.
pub fn room_is_around()
    ensures { RoomIsAround }
{}

/// A positive request that fits a box that is free once a set of ids is freed has room once those of the set are freed
/// whose boxes lie inside it.
pub fn room_is_kept()
    ensures { RoomIsKept }
{}

/// Freeing no id leaves the free boxes as they are.
pub fn nothing_shown()
    ensures { NothingShownChangesNothing }
{}

/// An id freed after a set leaves free and live what freeing both at once does.
pub fn freed_twice()
    ensures { FreedTwice }
{}

/// What has room once a part of a set of ids is freed has room once the set is.
pub fn room_grows()
    ensures { RoomGrows }
{}
