// Histories worked by hand, as the contract of a function with nothing to do.
ghost use Rattle.vb_hist.specs.Worked.{IsWorkedOut, after_first_head, ahead_of_cloud, before_first_head, cloud_behind, cut_behind_cut, cut_to_start, doubt_goes, doubt_outlives, doubt_published_later, lost_calls, new_folder, number_comes_again, older_doubt_returns, publication_follows, rollback, rollback_to_doubt, two_cuts};

/// Each of these histories is legal, and comes to the survivors, the marks and the folder that stand beside it.
pub fn histories_worked_by_hand()
    ensures before_first_head { IsWorkedOut new_folder before_first_head }
    ensures after_first_head { IsWorkedOut new_folder after_first_head }
    ensures lost_calls { IsWorkedOut new_folder lost_calls }
    ensures doubt_outlives { IsWorkedOut new_folder doubt_outlives }
    ensures doubt_goes { IsWorkedOut new_folder doubt_goes }
    ensures older_doubt_returns { IsWorkedOut new_folder older_doubt_returns }
    ensures rollback { IsWorkedOut new_folder rollback }
    ensures rollback_to_doubt { IsWorkedOut new_folder rollback_to_doubt }
    ensures cut_behind_cut { IsWorkedOut new_folder cut_behind_cut }
    ensures publication_follows { IsWorkedOut new_folder publication_follows }
    ensures doubt_published_later { IsWorkedOut new_folder doubt_published_later }
    ensures number_comes_again { IsWorkedOut new_folder number_comes_again }
    ensures two_cuts { IsWorkedOut new_folder two_cuts }
    ensures cut_to_start { IsWorkedOut new_folder cut_to_start }
    ensures cloud_behind { IsWorkedOut ahead_of_cloud cloud_behind }
{}
