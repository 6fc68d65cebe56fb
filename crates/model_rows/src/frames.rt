//! Frames of known bytes, in both versions.

ghost use Rattle.std.specs.Prelude.{◌≡◌, map, Some, None};
ghost use Rattle.guards_model.specs.declared.Slot.TheVariants.{Request};
ghost use Rattle.guards_model.specs.Frames.{request_body, spelling};
ghost use Rattle.guards_model.specs.Fields.{frame_in};
ghost use Rattle.guards_model.specs.Network.{counting};
ghost use Rattle.model_rows.specs.KnownFrames.{known_frames, no_frames, request_frame, format_in};

/// Frames of both versions and their bytes.
pub fn frames_are_spelled()
    ensures spelled { map (λ e. spelling e.1) known_frames ≡ map (λ e. e.0) known_frames }
    ensures found { map (λ e. frame_in e.0) known_frames ≡ map (λ e. Some e.1) known_frames }
    ensures others { map frame_in no_frames ≡ map (λ bytes. None) no_frames }
{}

/// A frame counts only in its own version.
pub fn versions_are_kept_apart()
    ensures own { counting (format_in 2) 1 Request 4 0 (request_frame 2) ≡ Some (request_body None) }
    ensures other { counting (format_in 1) 1 Request 4 0 (request_frame 2) ≡ None }
{}
